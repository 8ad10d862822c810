// The largest whole number not above a number, to 2^31 in size, in the first engine's steps: through
// the cast to an integer and back. Further on the cast clips, and of a NaN it is 0.
ghost use Rattle.std.specs.Prelude.{◌≡◌};
ghost use Rattle.std.specs.Float.{binary32};
ghost use Rattle.std.specs.Float.Ieee.{lt, of_bits, to_bits, of_int};
ghost use Rattle.format.specs.Whole.{floor_word};

use crate::{add, rounding};
use float::F32;
use format::Number;

// The number 1 is 2^149 units.
const ONE: u32 = rounding::UNIT + 149;

// The word of an integer, rounded.
fn from_integer(n: i32) -> u32
    ensures { result ≡ to_bits binary32 (of_int binary32 n) }
{
    let size = n.unsigned_abs() as u64;
    // one call for each sign: with the sign a value floor takes some instructions more
    if n < 0 {
        rounding::rounded(true, size, ONE)
    } else {
        rounding::rounded(false, size, ONE)
    }
}

// Whether a number is below another: zeros are equal, and a NaN is below nothing and above nothing.
fn is_less(a: u32, b: u32) -> bool
    ensures { result ≡ lt (of_bits binary32 a) (of_bits binary32 b) }
{
    if F32(a).is_nan() || F32(b).is_nan() {
        return false;
    }
    let x = F32(a).without_sign().0;
    let y = F32(b).without_sign().0;
    match (F32(a).is_sign_negative(), F32(b).is_sign_negative()) {
        (true, true) => y < x,
        (true, false) => 0 < x + y,
        (false, true) => false,
        (false, false) => x < y,
    }
}

pub fn floor(w: u32) -> u32
    ensures { result ≡ floor_word binary32 w }
{
    let whole = from_integer(F32(w).to_i32());
    if is_less(w, whole) {
        add::sub(whole, F32::ONE.0)
    } else {
        whole
    }
}
