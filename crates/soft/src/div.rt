// The quotient of two words, rounded once.
ghost use Rattle.std.specs.Prelude.{◌≡◌, ◌*◌, ◌/◌, ◌^◌, ◌<◌};
ghost use Rattle.std.specs.Float.{binary32};
ghost use Rattle.format.specs.Fields.{magnitude};
ghost use Rattle.soft.specs.Words.{div_word};
ghost use Rattle.soft.specs.Operations.{Divides};

use crate::parts::FiniteWord;
use crate::{parts, rounding};
use float::F32;
use format::Number;

// Units over units are a plain number, and 1 is 2^149 units; the quotient of digits has one digit more.
const QUOTIENT: u32 = rounding::UNIT + 149 - 1;

// n * 2^32 over a number of 24 digits at most, without what is left over: eight digits at a time, so that
// a controller divides by an instruction of its own.
fn divided(n: u32, by: u32) -> u64
    requires some { 0 < by }
    requires few { by < 2 ^ 24 }
    ensures { result ≡ n * 2 ^ 32 / by }
{
    let mut whole = (n / by) as u64;
    let mut rest = n % by;
    for turn in 0..4u32 {
        let more = rest * 256;
        whole = whole * 256 + (more / by) as u64;
        rest = more % by;
    }
    whole
}

// The second is not zero. The first one's digits are moved up until there are 62, so that the
// quotient has more digits than a word keeps; one behind them says whether anything is left over.
fn quotient(a: FiniteWord, b: FiniteWord) -> u32
    requires { 0 < magnitude binary32 b.word }
    ensures { result ≡ div_word binary32 a.word b.word }
{
    let sign = parts::signs_differ(a.word, b.word);
    let digits = a.digits();
    if digits == 0 {
        return parts::sign_bit(sign);
    }
    let free = u64::leading_zeros(digits) - 2;
    let full = digits << free;
    let by = b.digits();
    let at = a.places() + QUOTIENT - free - b.places();
    let whole = divided((full >> 32) as u32, by as u32);
    if whole * by == full {
        rounding::rounded(sign, whole * 2, at)
    } else {
        rounding::rounded(sign, whole * 2 + 1, at)
    }
}

pub fn div(a: u32, b: u32) -> u32
    ensures word { result ≡ div_word binary32 a b }
    ensures rounds { Divides binary32 a b result }
{
    if F32(a).is_nan() || F32(b).is_nan() {
        return F32::NAN.0;
    }
    if parts::is_infinite(a) {
        if parts::is_infinite(b) {
            F32::NAN.0
        } else {
            parts::infinity(parts::signs_differ(a, b))
        }
    } else if parts::is_infinite(b) {
        parts::sign_bit(parts::signs_differ(a, b))
    } else if parts::is_zero(b) {
        if parts::is_zero(a) {
            F32::NAN.0
        } else {
            parts::infinity(parts::signs_differ(a, b))
        }
    } else {
        quotient(FiniteWord { word: a }, FiniteWord { word: b })
    }
}
