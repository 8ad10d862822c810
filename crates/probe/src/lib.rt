// Exported calls for the comparison alone: the casts and helpers of `float`, which the crate keeps
// to itself and no frame reaches, and raw powi's count. Those of the studio edition are in studio.rt.
// No crate stands on it.
#![tactic(auto)]

ghost use Rattle.std.specs.Prelude.{◌≡◌, ◌+◌, ◌*◌, ◌%◌, ◌^◌, pos, get_or};
ghost use Rattle.std.specs.Float.{binary32};
ghost use Rattle.std.specs.Float.Ieee.{of_bits, to_bits, of_int, to_signed};
ghost use Rattle.std.proofs.Common.{of_z};
ghost use Rattle.std.specs.Int.{w32};
ghost use Rattle.format.specs.Fields.{exponent, magnitude};
ghost use Rattle.format.specs.Exponent.{exponent_value, set_exponent_word, is_integer_word, is_even_word};
ghost use Rattle.float.specs.Marks.{mark_of, number_of};
ghost use Rattle.float.specs.Powi.{products_of};
ghost use Rattle.probe.specs.Constants.{constants};

use float::F32;
use float::cos::TURN;
use format::Number;

pub mod studio;

#[unsafe(no_mangle)]
pub extern "C" fn probe_to_i32(a: u32) -> i32
    ensures { result ≡ to_signed 31 (of_bits binary32 a) }
{
    F32(a).to_i32()
}

// The mark's number in the high 32 bits, and the integer's word in the low 32.
#[unsafe(no_mangle)]
pub extern "C" fn probe_cast_marked(a: u32) -> u64
    ensures { result ≡ number_of (mark_of a) * 2 ^ 32 + of_z w32 (to_signed 31 (of_bits binary32 a)) }
{
    let casted = F32(a).cast_marked();
    u32::from(casted.mark) as u64 * 0x1_0000_0000 + casted.value.cast_unsigned() as u64
}

#[unsafe(no_mangle)]
pub extern "C" fn probe_from_i32(n: i32) -> u32
    ensures { result ≡ to_bits binary32 (of_int binary32 n) }
{
    F32::of(float::cast::from_i32(n)).0
}

#[unsafe(no_mangle)]
pub extern "C" fn probe_from_u32(n: u32) -> u32
    ensures { result ≡ to_bits binary32 (of_int binary32 (pos n)) }
{
    F32::of(float::cast::from_u32(n)).0
}

// How many products raw powi forms.
#[unsafe(no_mangle)]
pub extern "C" fn probe_powi_products(a: u32, n: i32) -> u32
    ensures { result ≡ products_of a n }
{
    F32(a).powi_counted(n).products
}

// A float through the language's own type and back: every NaN becomes 7fc00000.
#[unsafe(no_mangle)]
pub extern "C" fn probe_value(a: u32) -> u32
    ensures { result ≡ to_bits binary32 (of_bits binary32 a) }
{
    F32::of(F32(a).value()).0
}

#[unsafe(no_mangle)]
pub extern "C" fn probe_exponent_bits(a: u32) -> u32
    ensures { result ≡ exponent binary32 a }
{
    F32(a).extract_exponent_bits()
}

#[unsafe(no_mangle)]
pub extern "C" fn probe_exponent_value(a: u32) -> i32
    ensures { result ≡ exponent_value binary32 a }
{
    F32(a).extract_exponent_value()
}

#[unsafe(no_mangle)]
pub extern "C" fn probe_without_sign(a: u32) -> u32
    ensures { result ≡ magnitude binary32 a }
{
    F32(a).without_sign().0
}

#[unsafe(no_mangle)]
pub extern "C" fn probe_set_exponent(a: u32, n: i32) -> u32
    ensures { result ≡ set_exponent_word binary32 a ((of_z w32 n + 127) % 2 ^ 32) }
{
    F32(a).set_exponent(n).0
}

#[unsafe(no_mangle)]
pub extern "C" fn probe_is_integer(a: u32) -> bool
    ensures { result ≡ is_integer_word binary32 a }
{
    F32(a).is_integer()
}

#[unsafe(no_mangle)]
pub extern "C" fn probe_is_even(a: u32) -> bool
    ensures { result ≡ is_even_word binary32 a }
{
    F32(a).is_even()
}

// The constants of the number type, and the one of cos that is half of another, by their places in
// the definition's list, and 0 past its end.
#[unsafe(no_mangle)]
pub extern "C" fn probe_constant(place: u32) -> u32
    ensures { result ≡ get_or constants place 0 }
{
    let all = [
        F32::ZERO.0,
        F32::ONE.0,
        F32::EPSILON.0,
        F32::NAN.0,
        F32::INFINITY.0,
        F32::NEG_INFINITY.0,
        F32::FRAC_1_PI.0,
        F32::LN_2.0,
        F32::LOG2_E.0,
        F32::E.0,
        F32::PI.0,
        F32::FRAC_PI_2.0,
        F32::SIGN_MASK,
        F32::EXPONENT_MASK,
        F32::MANTISSA_MASK,
        F32::EXPONENT_BIAS,
        F32::MANTISSA_BITS,
        F32::of(TURN).0,
    ];
    all.get(place as usize).copied().unwrap_or(0)
}
