// The number type F32, which is its 32 bits, and the helpers of micromath's float.rs. What it shares
// with F64 is `Number` of `format`, the kernels trunc, fract, copysign, sqrt and inv among it. The
// other kernels stand one to a file, under the crate's own names. `raw`, `guard`, `soft`,
// `dampmeadow` and `probe` call it, and `sizes` measures its steps.
#![tactic(auto)]

ghost use Rattle.std.specs.Prelude.{◌≡◌, ◌+◌, ◌%◌, ◌^◌, from_bits, to_bits};
ghost use Rattle.std.specs.Float.{binary32};
ghost use Rattle.std.proofs.Common.{of_z, refl};
ghost use Rattle.std.specs.Int.{w32};
ghost use Rattle.format.specs.Exponent.{exponent_value, set_exponent_word, is_integer_word, is_even_word};

pub mod abs;
pub mod acos;
pub mod asin;
pub mod atan;
pub mod atan2;
pub mod cast;
pub mod ceil;
pub mod cos;
pub mod div_euclid;
pub mod exp;
pub mod floor;
pub mod hypot;
pub mod invsqrt;
pub mod ln;
pub mod mark;
pub mod powf;
pub mod powi;
pub mod recip;
pub mod rem_euclid;
mod remainder;
pub mod round;
pub mod signum;
pub mod sin;
pub mod steps;
pub mod tan;
pub mod wrap;

use format::Number;
use format::words::Word;

// A number by its bits. Every word is one, each NaN pattern too.
#[derive(Clone, Copy)]
pub struct F32(pub u32);

impl F32 {
    // The distance from 1 to the next number above it.
    pub const EPSILON: F32 = F32(0x3400_0000);

    pub const NEG_INFINITY: F32 = F32(0xff80_0000);

    pub const FRAC_1_PI: F32 = F32(0x3ea2_f983);

    pub const LN_2: F32 = F32(0x3f31_7218);

    pub const LOG2_E: F32 = F32(0x3fb8_aa3b);

    pub const E: F32 = F32(0x402d_f854);

    pub const PI: F32 = F32(0x4049_0fdb);

    pub const FRAC_PI_2: F32 = F32(0x3fc9_0fdb);

    // The language's own float, which is another type for each format: so this and `of` are no part of
    // `Number`. Every NaN pattern is its one NaN.
    #[tactic(auto, using(format::proofs::Nan::zero_over_zero, format::proofs::Nan::nan_read))]
    pub fn value(self) -> f32
        ensures { result ≡ from_bits binary32 self.0 }
    {
        if self.is_nan() {
            0.0 / 0.0
        } else {
            f32::from_bits(self.0)
        }
    }

    // The word of a float. The language's NaN is 7fc00000, whatever bits the machine has for it.
    #[tactic(auto, using(format::proofs::Nan::nan_told, format::proofs::Nan::no_nan))]
    pub fn of(x: f32) -> F32
        ensures { result.0 ≡ to_bits binary32 x }
    {
        if x != x {
            F32::NAN
        } else {
            F32(f32::to_bits(x))
        }
    }

    pub fn extract_exponent_value(self) -> i32
        ensures { result ≡ exponent_value binary32 self.0 }
    {
        self.extract_exponent_bits() as i32 - 127
    }

    // The word with another exponent, biased and or-ed in place; it wraps for an exponent that no word has.
    pub fn set_exponent(self, exponent: i32) -> F32
        ensures { result.0 ≡ set_exponent_word binary32 self.0 ((of_z w32 exponent + 127) % 2 ^ 32) }
    {
        let field = cast::bits_of_i32(exponent).wrapping_add(F32::EXPONENT_BIAS);
        F32((self.0 & !F32::EXPONENT_MASK) | field.moved_up(F32::MANTISSA_BITS))
    }

    // Whether the crate takes the number for a whole one. 0.5 is: a negative exponent counts as 0.
    pub fn is_integer(self) -> bool
        ensures { result ≡ is_integer_word binary32 self.0 }
    {
        self.0.moved_up(self.exponent_clamped()) & F32::MANTISSA_MASK == 0
    }

    // Whether the number's cast is even; from 2^31 on, and for an infinity or a NaN, it is.
    pub fn is_even(self) -> bool
        ensures { result ≡ is_even_word binary32 self.0 }
    {
        if self.extract_exponent_bits() >= F32::EXPONENT_BIAS + 31 {
            return true;
        }
        self.to_i32() % 2 == 0
    }
}

impl Number for F32 {
    type Word = u32;

    ghost format = { binary32 };

    ghost word = { λ x. x.0 };

    ghost ZERO = { record { 0 = 0x0000_0000 } };

    ghost ONE = { record { 0 = 0x3f80_0000 } };

    ghost NAN = { record { 0 = 0x7fc0_0000 } };

    ghost INFINITY = { record { 0 = 0x7f80_0000 } };

    ghost SIGN_MASK = { 0x8000_0000 };

    ghost EXPONENT_MASK = { 0x7f80_0000 };

    ghost MANTISSA_MASK = { 0x007f_ffff };

    ghost EXPONENT_BIAS = { 127 };

    ghost MANTISSA_BITS = { 23 };

    ghost INV_MAGIC = { 0x7f00_0000 };

    const ZERO: F32 = F32(0x0000_0000);

    const ONE: F32 = F32(0x3f80_0000);

    const NAN: F32 = F32(0x7fc0_0000);

    const INFINITY: F32 = F32(0x7f80_0000);

    const SIGN_MASK: u32 = 0x8000_0000;

    const EXPONENT_MASK: u32 = 0x7f80_0000;

    const MANTISSA_MASK: u32 = 0x007f_ffff;

    const EXPONENT_BIAS: u32 = 127;

    const MANTISSA_BITS: u32 = 23;

    const INV_MAGIC: u32 = 0x7f00_0000;

    fn from_bits(bits: u32) -> F32 {
        F32(bits)
    }

    fn to_bits(self) -> u32 {
        self.0
    }

    fn less_one(self) -> F32 {
        F32::of(self.value() - 1.0)
    }

    ghost width_law = { refl };

    ghost zero_law = { refl };

    ghost one_law = { refl };

    ghost nan_law = { refl };

    ghost infinity_law = { refl };

    ghost sign_mask_law = { refl };

    ghost exponent_mask_law = { refl };

    ghost mantissa_mask_law = { refl };

    ghost exponent_bias_law = { refl };

    ghost mantissa_bits_law = { refl };

    ghost inv_magic_law = { refl };
}
