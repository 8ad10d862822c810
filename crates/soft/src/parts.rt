// What a word is made of.
ghost use Rattle.std.specs.Prelude.{◌≡◌, ◌^◌, ◌<◌, eqb};
ghost use Rattle.std.specs.Float.{binary32};
ghost use Rattle.std.specs.Float.Ieee.{unlike};
ghost use Rattle.format.specs.Fields.{negative, magnitude, sign_bit, inf_word};
ghost use Rattle.format.specs.Value.{Finite};
ghost use Rattle.soft.specs.Digits.{digits_of, places_of};
ghost use Rattle.soft.specs.Rounding.{infinity};

use float::F32;
use format::Number;

// A word that is neither an infinity nor a NaN: what is added, multiplied and divided by its digits.
#[derive(Clone, Copy)]
pub(crate) struct FiniteWord {
    pub(crate) word: u32,
    ghost finite: { Finite binary32 word },
}

impl FiniteWord {
    // Its digits, the leading one with them where the exponent field is not 0.
    #[tactic(auto, using(format::proofs::Masks::only_fraction), unfolding(crate::specs::Digits::digits_of))]
    pub(crate) fn digits(self) -> u64
        ensures value { result ≡ digits_of binary32 self.word }
        ensures few { result < 2 ^ 24 }
    {
        let fraction = self.word & F32::MANTISSA_MASK;
        let digits = if F32(self.word).extract_exponent_bits() == 0 {
            fraction
        } else {
            fraction + 0x80_0000
        };
        digits as u64
    }

    // By how many places they are moved up.
    #[tactic(auto, using(format::proofs::Fields::exponent_lt), unfolding(crate::specs::Digits::places_of))]
    pub(crate) fn places(self) -> u32
        ensures value { result ≡ places_of binary32 self.word }
        ensures few { result < 254 }
    {
        F32(self.word).extract_exponent_bits().saturating_sub(1)
    }

    pub(crate) fn is_negative(self) -> bool
        ensures { result ≡ negative binary32 self.word }
    {
        F32(self.word).is_sign_negative()
    }

    // The word without its sign, by which sizes are compared.
    pub(crate) fn size(self) -> u32
        ensures { result ≡ magnitude binary32 self.word }
    {
        F32(self.word).without_sign().0
    }
}

// A sign as the bit that it sets.
pub(crate) fn sign_bit(sign: bool) -> u32
    ensures { result ≡ sign_bit binary32 sign }
{
    if sign { F32::SIGN_MASK } else { 0 }
}

// Whether just one of two words is negative.
pub(crate) fn signs_differ(a: u32, b: u32) -> bool
    ensures { result ≡ unlike (negative binary32 a) (negative binary32 b) }
{
    F32(a).is_sign_negative() != F32(b).is_sign_negative()
}

pub(crate) fn is_infinite(w: u32) -> bool
    ensures { result ≡ eqb (magnitude binary32 w) (inf_word binary32) }
{
    F32(w).without_sign().0 == F32::EXPONENT_MASK
}

pub(crate) fn is_zero(w: u32) -> bool
    ensures { result ≡ eqb (magnitude binary32 w) 0 }
{
    F32(w).without_sign().0 == 0
}

pub(crate) fn infinity(sign: bool) -> u32
    ensures { result ≡ infinity binary32 sign }
{
    sign_bit(sign) + F32::EXPONENT_MASK
}
