// The language's own remainder of two numbers, worked out on their words with whole numbers alone:
// compiled as it stands it is a call of the C library, and not every C library has that call.
ghost use Rattle.std.specs.Prelude.{◌≡◌, ◌-◌, ◌*◌, ◌/◌, ◌%◌, ◌^◌, ◌<◌, ◌≤◌};
ghost use Rattle.std.specs.Float.{binary32};
ghost use Rattle.std.specs.Float.Ieee.{of_bits};
ghost use Rattle.format.specs.Value.{units};
ghost use Rattle.float.specs.RemEuclid.{remainder};

use crate::F32;
use format::Number;

// The exponent field of an infinity or a NaN.
const ENDLESS: u32 = 255;

// The weight of the exponent field.
const FIELD: u32 = 0x0080_0000;

#[tactic(auto, using(crate::proofs::LeftOf::remainder_cases))]
pub(crate) fn remainder(x: F32, y: F32) -> F32
    ensures { of_bits binary32 result.0 ≡ remainder x.0 y.0 }
{
    if x.extract_exponent_bits() == ENDLESS || y.is_nan() {
        return F32::NAN;
    }
    if y.extract_exponent_bits() == ENDLESS {
        return x;
    }
    let v = y.without_sign().0;
    if v == 0 {
        return F32::NAN;
    }
    F32(left_of(x.without_sign().0, v)).copysign(x)
}

// What is left of one magnitude by another that is no zero, both below the infinity.
#[tactic(auto, using(crate::proofs::LeftOf::nothing_left, crate::proofs::LeftOf::left_is))]
fn left_of(w: u32, v: u32) -> u32
    requires dividend { w < 0x7f80_0000 }
    requires divisor { v < 0x7f80_0000 }
    requires some { 0 < v }
    ensures below { result < 0x7f80_0000 }
    ensures left { units binary32 result ≡ units binary32 w % units binary32 v }
{
    if w < v {
        return w;
    }
    let p = place(v);
    let q = place(w);
    let n = v - p * FIELD;
    let m = w - q * FIELD;
    written(moved_up(m, q - p, n), p)
}

// How many places a magnitude's last digit stands above the lowest.
fn place(w: u32) -> u32
    ensures { result ≡ w / 0x0080_0000 - 1 }
{
    (w / FIELD).saturating_sub(1)
}

// What is left of a number by another, the first moved up by some places.
#[tactic(auto, using(crate::proofs::LeftOf::one_up))]
fn moved_up(m: u32, places: u32, n: u32) -> u32
    requires some { 0 < n }
    requires few { n ≤ 0x0100_0000 }
    ensures { result ≡ m * 2 ^ places % n }
{
    let mut left = m % n;
    for i in 0..places {
        left = left * 2 % n;
    }
    left
}

// The magnitude that has some digits at a place, where those are no more than it can hold. They are
// moved up until they are as many as that, or end at the lowest place.
fn written(digits: u32, places: u32) -> u32
    requires few { digits < 0x0100_0000 }
    requires low { places ≤ 253 }
    ensures below { result < 0x7f80_0000 }
    ensures value { units binary32 result ≡ digits * 2 ^ places }
{
    if digits == 0 {
        return 0;
    }
    let up = places.min(digits.leading_zeros() - 8);
    (places - up) * FIELD + (digits << up)
}
