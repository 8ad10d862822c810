// The one rounding: whole numbers in, a word out.
ghost use Rattle.std.specs.Prelude.{◌≡◌, ◌+◌, ◌*◌, ◌^◌, ◌≤◌, ◌<◌};
ghost use Rattle.std.specs.Float.{binary32};
ghost use Rattle.std.specs.Float.Ieee.Nearest.{closest};
ghost use Rattle.soft.specs.Digits.{scaled_word};

use crate::parts;
use float::F32;
use format::Number;

// The place of one unit, which is the smallest number there is: so high that no place of a product or a
// quotient is below 62.
pub(crate) const UNIT: u32 = 300;

// The highest place at which 63 digits are rounded to whole units. From the next on 39 of them are
// dropped, and a word keeps 24.
const SMALL: u32 = UNIT - 39;

// x over 2^count, to the nearest whole number, and on a tie to the even one.
pub(crate) fn nearest(x: u64, count: u32) -> u64
    requires some { 0 < count }
    requires few { count < 64 }
    ensures { result ≡ closest x (2 ^ count) }
{
    let whole = x >> count;
    let unit = 1u64 << count;
    let rest = x & (unit - 1);
    let other = unit - rest;
    if rest < other {
        return whole;
    }
    if other < rest {
        return whole + 1;
    }
    whole + whole % 2
}

// m * 2^at units over 2^UNIT, to the nearest word; from half a step above the largest on, an infinity.
pub(crate) fn rounded(sign: bool, m: u64, at: u32) -> u32
    requires few { m < 2 ^ 63 }
    requires low { 62 ≤ at }
    requires high { at < 1000 }
    ensures { result ≡ scaled_word binary32 sign m at }
{
    let bit = parts::sign_bit(sign);
    if m == 0 {
        return bit;
    }
    let free = u64::leading_zeros(m) - 1;
    let full = m << free;
    let high = at - free;
    if high <= SMALL {
        let count = UNIT - high;
        if 63 < count {
            return bit;
        }
        return bit + nearest(full, count) as u32;
    }
    let word = (high - SMALL) as u64 * 0x80_0000 + nearest(full, 39);
    if word < F32::EXPONENT_MASK as u64 {
        return bit + word as u32;
    }
    bit + F32::EXPONENT_MASK
}
