// What the cast of a float to a 32-bit integer did to it: whether the integer is the number, and if
// not, what was lost. The cast itself is `to_i32`, and it is the only one.
ghost use Rattle.std.specs.Prelude.{◌≡◌, if◌then◌else◌, from_bits};
ghost use Rattle.std.specs.Float.{binary32};
ghost use Rattle.std.specs.Float.Ieee.{to_signed};
ghost use Rattle.float.specs.Marks.{mark_of, number_of, Tells};

use crate::F32;
use format::Number;

#[derive(Clone, Copy, Debug, PartialEq, Eq)]
pub enum Mark {
    // The integer is the number.
    Exact,
    // It is the number without its fraction.
    Dropped,
    // It is the greatest, and the number is 2^31 or more.
    High,
    // It is the least, and the number is below -2^31.
    Low,
    // It is 0, and the word is a NaN.
    NotANumber,
}

// From 0 to 4, in the order above.
impl From<Mark> for u32 {
    ghost from_gives = { λ m n. n ≡ number_of m };

    fn from(mark: Mark) -> u32 {
        match mark {
            Mark::Exact => 0,
            Mark::Dropped => 1,
            Mark::High => 2,
            Mark::Low => 3,
            Mark::NotANumber => 4,
        }
    }
}

// What a cast gave, or a kernel by way of it, with the mark of the cast.
#[derive(Clone, Copy)]
pub struct Marked<T> {
    pub value: T,
    pub mark: Mark,
}

impl F32 {
    // The mark is found apart from the integer, so that a kernel that does not ask for it runs
    // nothing for it.
    #[tactic(auto, using(crate::proofs::Marks::told))]
    pub fn cast_marked(self) -> Marked<i32>
        ensures value { result.value ≡ to_signed 31 (from_bits binary32 self.0) }
        ensures mark { result.mark ≡ mark_of self.0 }
        ensures tells { Tells result.mark self.0 result.value }
    {
        Marked {
            value: self.to_i32(),
            mark: of_cast(self),
        }
    }
}

// -2^31: of the words from 2^31 on in size, the one that a 32-bit integer holds.
const LEAST: u32 = 0xcf00_0000;

#[tactic(auto, using(crate::proofs::Marks::mark_within, crate::proofs::Marks::mark_low, crate::proofs::Marks::mark_high))]
fn of_cast(x: F32) -> Mark
    ensures { result ≡ mark_of x.0 }
{
    let exponent = x.extract_exponent_bits();
    if x.is_nan() {
        Mark::NotANumber
    } else if exponent < F32::EXPONENT_BIAS + 31 {
        // the crate's own test is right here from 1 on, and below 1 a zero alone is whole
        let whole = (exponent >= F32::EXPONENT_BIAS) & x.is_integer();
        kept(whole | (x.without_sign().0 == 0))
    } else if x.0 == LEAST {
        Mark::Exact
    } else if x.is_sign_negative() {
        Mark::Low
    } else {
        Mark::High
    }
}

fn kept(whole: bool) -> Mark
    ensures { result ≡ (if whole then Mark.Exact else Mark.Dropped) }
{
    if whole { Mark::Exact } else { Mark::Dropped }
}
