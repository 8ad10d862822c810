// The product of two words, rounded once.
ghost use Rattle.std.specs.Prelude.{◌≡◌, ◌*◌};
ghost use Rattle.std.specs.Float.{binary32};
ghost use Rattle.soft.specs.Words.{mul_word};
ghost use Rattle.soft.specs.Operations.{Multiplies};

use crate::parts::FiniteWord;
use crate::{parts, rounding};
use float::F32;
use format::Number;

// Two numbers of units, each of which is 2^-149, have a product that is counted in 2^-149 of a unit.
const PRODUCT: u32 = rounding::UNIT - 149;

// The digits' product, at the places of both.
fn product(a: FiniteWord, b: FiniteWord) -> u32
    ensures { result ≡ mul_word binary32 a.word b.word }
{
    let digits = a.digits() * b.digits();
    let places = a.places() + b.places();
    rounding::rounded(
        parts::signs_differ(a.word, b.word),
        digits,
        places + PRODUCT,
    )
}

pub fn mul(a: u32, b: u32) -> u32
    ensures word { result ≡ mul_word binary32 a b }
    ensures rounds { Multiplies binary32 a b result }
{
    if F32(a).is_nan() || F32(b).is_nan() {
        return F32::NAN.0;
    }
    if parts::is_infinite(a) {
        if parts::is_zero(b) {
            F32::NAN.0
        } else {
            parts::infinity(parts::signs_differ(a, b))
        }
    } else if parts::is_infinite(b) {
        if parts::is_zero(a) {
            F32::NAN.0
        } else {
            parts::infinity(parts::signs_differ(a, b))
        }
    } else {
        product(FiniteWord { word: a }, FiniteWord { word: b })
    }
}
