// The casts between floats and 32-bit integers, and between signed integers and their words, as
// Rust's `as` has them.
ghost use Rattle.std.specs.Prelude.{◌≡◌, ◌≤◌, pos, from_bits};
ghost use Rattle.std.specs.Float.{binary32};
ghost use Rattle.std.specs.Float.Ieee.{of_int, to_signed};
ghost use Rattle.std.proofs.Common.{of_z, to_z};
ghost use Rattle.std.specs.Int.{w32};
ghost use Rattle.format.specs.Fields.{exponent};

use crate::F32;
use format::Number;

// The weight of a normal number's leading digit, which its word leaves out.
const LEADING: u32 = 0x0080_0000;

impl F32 {
    // Toward zero; past either end of the range, that end; a NaN is 0. Every cast of a float to an
    // integer here is this one.
    pub fn to_i32(self) -> i32
        ensures { result ≡ to_signed 31 (from_bits binary32 self.0) }
    {
        let exponent = self.extract_exponent_bits();
        if exponent > F32::EXPONENT_BIAS + 30 {
            return clipped(self);
        }
        // the significand, its leading digit with it, at the top of a word and brought down to the point
        let top = (LEADING + self.0 % LEADING) as u64 * 0x100;
        // of a count of 64 or more nothing of the word is left, nor by 63
        let whole = (top >> (F32::EXPONENT_BIAS + 31 - exponent).min(63)) as i32;
        if self.is_sign_negative() {
            -whole
        } else {
            whole
        }
    }
}

// What a number past the range is cast to.
#[tactic(auto, using(format::proofs::Cast::nan_casts, format::proofs::Cast::past_casts))]
fn clipped(x: F32) -> i32
    requires { 158 ≤ exponent binary32 x.0 }
    ensures { result ≡ to_signed 31 (from_bits binary32 x.0) }
{
    if x.is_nan() {
        0
    } else if x.is_sign_negative() {
        i32::MIN
    } else {
        i32::MAX
    }
}

// To the nearest, ties to the even one.
pub fn from_i32(n: i32) -> f32
    ensures { result ≡ of_int binary32 n }
{
    if n < 0x100_0000 && n > -0x100_0000 {
        return n as f32;
    }
    std::num::nearest_i32_to_f32(n)
}

// To the nearest, ties to the even one.
pub fn from_u32(n: u32) -> f32
    ensures { result ≡ of_int binary32 (pos n) }
{
    std::num::nearest_u32_to_f32(n)
}

// The word of an integer in two's complement: a negative one gains 2^32.
pub fn bits_of_i32(n: i32) -> u32
    ensures { result ≡ of_z w32 n }
{
    n.cast_unsigned()
}

// The integer that a word is in two's complement.
pub fn i32_of_bits(w: u32) -> i32
    ensures { result ≡ to_z w32 w }
{
    w.cast_signed()
}
