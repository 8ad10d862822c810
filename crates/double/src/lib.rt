// The number type F64, which is its 64 bits, with its constants; what it shares with F32 is `Number`
// of `format`, the kernels trunc, fract, sqrt and inv among it. `guarded` has those behind the light
// gate, and `words` by number. They are Dampmeadow's own, after those of micromath at 32 bits.
// `dampmeadow`, `doubles` and `probe` call it.
#![tactic(auto)]

ghost use Rattle.std.specs.Prelude.{◌≡◌};
ghost use Rattle.std.specs.Float.{binary64};
ghost use Rattle.std.specs.Float.Ieee.{of_bits, to_bits};
ghost use Rattle.std.proofs.Common.{refl};

pub mod gate;
pub mod guarded;
pub mod number;
pub mod refusal;
pub mod words;

use format::Number;

// A number by its bits. Every word is one, each NaN pattern too.
#[derive(Clone, Copy)]
pub struct F64(pub u64);

impl F64 {
    // The distance from 1 to the next number above it.
    pub const EPSILON: F64 = F64(0x3cb0_0000_0000_0000);

    pub const NEG_INFINITY: F64 = F64(0xfff0_0000_0000_0000);

    // The language's own float, which is another type for each format: so this and `of` are no part of
    // `Number`. Every NaN pattern is its one NaN.
    pub fn value(self) -> f64
        ensures { result ≡ of_bits binary64 self.0 }
    {
        if self.is_nan() {
            0.0 / 0.0
        } else {
            f64::from_bits(self.0)
        }
    }

    // The word of a float. The language's NaN is 7ff8000000000000, whatever bits the machine has for
    // it.
    pub fn of(x: f64) -> F64
        ensures { result.0 ≡ to_bits binary64 x }
    {
        if x != x {
            F64::NAN
        } else {
            F64(f64::to_bits(x))
        }
    }
}

impl Number for F64 {
    type Word = u64;

    ghost format = { binary64 };

    ghost word = { λ x. x.0 };

    ghost ZERO = { record { 0 = 0x0000_0000_0000_0000 } };

    ghost ONE = { record { 0 = 0x3ff0_0000_0000_0000 } };

    ghost NAN = { record { 0 = 0x7ff8_0000_0000_0000 } };

    ghost INFINITY = { record { 0 = 0x7ff0_0000_0000_0000 } };

    ghost SIGN_MASK = { 0x8000_0000_0000_0000 };

    ghost EXPONENT_MASK = { 0x7ff0_0000_0000_0000 };

    ghost MANTISSA_MASK = { 0x000f_ffff_ffff_ffff };

    ghost EXPONENT_BIAS = { 1023 };

    ghost MANTISSA_BITS = { 52 };

    ghost INV_MAGIC = { 0x7fe0_0000_0000_0000 };

    const ZERO: F64 = F64(0x0000_0000_0000_0000);

    const ONE: F64 = F64(0x3ff0_0000_0000_0000);

    const NAN: F64 = F64(0x7ff8_0000_0000_0000);

    const INFINITY: F64 = F64(0x7ff0_0000_0000_0000);

    const SIGN_MASK: u64 = 0x8000_0000_0000_0000;

    const EXPONENT_MASK: u64 = 0x7ff0_0000_0000_0000;

    const MANTISSA_MASK: u64 = 0x000f_ffff_ffff_ffff;

    const EXPONENT_BIAS: u64 = 1023;

    const MANTISSA_BITS: u64 = 52;

    const INV_MAGIC: u64 = 0x7fe0_0000_0000_0000;

    fn from_bits(bits: u64) -> F64 {
        F64(bits)
    }

    fn to_bits(self) -> u64 {
        self.0
    }

    fn less_one(self) -> F64 {
        F64::of(self.value() - 1.0)
    }

    ghost width_law = { refl };

    ghost zero_law = { refl };

    ghost one_law = { refl };

    ghost nan_law = { refl };

    ghost infinity_law = { refl };

    ghost sign_mask_law = { refl };

    ghost exponent_mask_law = { refl };

    ghost mantissa_mask_law = { refl };

    ghost exponent_bias_law = { refl };

    ghost mantissa_bits_law = { refl };

    ghost inv_magic_law = { refl };
}
