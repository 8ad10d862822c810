// The sum and the difference of two words, rounded once.
ghost use Rattle.std.specs.Prelude.{◌≡◌, ◌+◌, ◌-◌, ◌≤◌, ◌<◌, if◌then◌else◌};
ghost use Rattle.std.specs.Float.{binary32};
ghost use Rattle.format.specs.Fields.{magnitude};
ghost use Rattle.format.specs.Value.{units};
ghost use Rattle.soft.specs.Words.{add_word, sub_word};
ghost use Rattle.soft.specs.Digits.{nearest_word};
ghost use Rattle.soft.specs.Operations.{Adds, Subtracts};

use crate::parts::FiniteWord;
use crate::rounding::UNIT;
use crate::{parts, rounding};
use float::F32;
use format::Number;

// By so many places or fewer the digits of one word move up and stay below 2^62. A number further
// below another is less than a quarter of the other's last place, and changes nothing.
const FAR: u32 = 38;

// How large the two are together, or with MINUS how much larger the first is than the second.
fn joined<const MINUS: bool>(sign: bool, a: FiniteWord, b: FiniteWord) -> u32
    requires { magnitude binary32 b.word ≤ magnitude binary32 a.word }
    ensures { result ≡ nearest_word binary32 sign (if MINUS then units binary32 a.word - units binary32 b.word else units binary32 a.word + units binary32 b.word) 1 }
{
    let more = a.digits();
    let less = b.digits();
    let high = a.places();
    let low = b.places();
    if FAR < high - low {
        return rounding::rounded(sign, more, high + UNIT);
    }
    let moved = more << (high - low);
    let all = if MINUS { moved - less } else { moved + less };
    rounding::rounded(sign, all, low + UNIT)
}

// Equal numbers of unlike signs leave +0.
fn sum(a: FiniteWord, b: FiniteWord) -> u32
    ensures { result ≡ add_word binary32 a.word b.word }
{
    let x = a.size();
    let y = b.size();
    if parts::signs_differ(a.word, b.word) {
        if x == y {
            0
        } else if x < y {
            joined::<true>(b.is_negative(), b, a)
        } else {
            joined::<true>(a.is_negative(), a, b)
        }
    } else if x < y {
        joined::<false>(a.is_negative(), b, a)
    } else {
        joined::<false>(a.is_negative(), a, b)
    }
}

pub fn add(a: u32, b: u32) -> u32
    ensures word { result ≡ add_word binary32 a b }
    ensures rounds { Adds binary32 a b result }
{
    if F32(a).is_nan() || F32(b).is_nan() {
        return F32::NAN.0;
    }
    if parts::is_infinite(a) {
        if parts::is_infinite(b) && parts::signs_differ(a, b) {
            F32::NAN.0
        } else {
            parts::infinity(F32(a).is_sign_negative())
        }
    } else if parts::is_infinite(b) {
        parts::infinity(F32(b).is_sign_negative())
    } else {
        sum(FiniteWord { word: a }, FiniteWord { word: b })
    }
}

pub fn sub(a: u32, b: u32) -> u32
    ensures word { result ≡ sub_word binary32 a b }
    ensures rounds { Subtracts binary32 a b result }
{
    add(a, b ^ F32::SIGN_MASK)
}
