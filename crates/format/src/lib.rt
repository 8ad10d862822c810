// What a word of an IEEE 754 binary format says, stated over the format: definitions in specs/,
// laws in proofs/; and how refusals stand in order, of any list. The crates above cite it, those of
// 32 bits at binary32 and `double` at binary64. Its code is what the two number types share.
#![tactic(auto)]

ghost use Rattle.std.specs.Prelude.{◌≡◌, ℕ, ◌-◌, ◌*◌, ◌<◌, not};
ghost use Rattle.std.specs.Float.{Format};
ghost use Rattle.std.specs.Float.Ieee.{prec, emax, hid, top, sub, of_bits, to_bits, nan_bits};
ghost use Rattle.format.specs.Fields.{negative, magnitude, exponent, one_word, inf_word, nan_word, width};
ghost use Rattle.format.specs.Sign.{copysign_word, turned_word, SignSet};
ghost use Rattle.format.specs.Parts.{trunc_word, fract_word};
ghost use Rattle.format.specs.Meaning.{UnderWidth, IsTrunc, IsFract};
ghost use Rattle.format.specs.Estimates.{at_least_zero, sqrt_word, Normal, SqrtBound, inv_magic, inv_word, Invertible, InvBound};
ghost use Rattle.format.specs.Classes.{is_endless, is_zero, is_small, is_below_zero};

pub mod words;

use words::Word;

// A number of a format, by its word. An implementation gives the word's type and the constants, and
// turns a word to a number and back; the rest is proved once, for both widths.
pub trait Number: Copy {
    type Word: Word;

    ghost format: { Format };

    ghost word: { Self → ℕ };

    // What the constants below are, which the laws at the end tie to the format.
    ghost ZERO: { Self };

    ghost ONE: { Self };

    ghost NAN: { Self };

    ghost INFINITY: { Self };

    ghost SIGN_MASK: { Self.Word };

    ghost EXPONENT_MASK: { Self.Word };

    ghost MANTISSA_MASK: { Self.Word };

    ghost EXPONENT_BIAS: { Self.Word };

    ghost MANTISSA_BITS: { Self.Word };

    ghost INV_MAGIC: { Self.Word };

    const ZERO: Self;

    const ONE: Self;

    const NAN: Self;

    const INFINITY: Self;

    const SIGN_MASK: Self::Word;

    const EXPONENT_MASK: Self::Word;

    const MANTISSA_MASK: Self::Word;

    const EXPONENT_BIAS: Self::Word;

    const MANTISSA_BITS: Self::Word;

    // Twice the word of 1: an exponent is turned about the bias.
    const INV_MAGIC: Self::Word;

    fn from_bits(bits: Self::Word) -> Self
        ensures { word result ≡ Self.Word.value bits };

    fn to_bits(self) -> Self::Word
        ensures word { Self.Word.value result ≡ word self }
        ensures fits { word self < 2 * top format };

    // The number less 1, rounded once.
    fn less_one(self) -> Self
        ensures { word result ≡ to_bits format (sub format (of_bits format (word self)) (of_bits format (one_word format))) };

    fn is_nan(self) -> bool
        ensures { result ≡ nan_bits format (word self) }
    {
        self.without_sign().to_bits() > Self::EXPONENT_MASK
    }

    fn is_sign_negative(self) -> bool
        ensures { result ≡ negative format (word self) }
    {
        self.to_bits() >= Self::SIGN_MASK
    }

    fn is_sign_positive(self) -> bool
        ensures { result ≡ not (negative format (word self)) }
    {
        !self.is_sign_negative()
    }

    fn without_sign(self) -> Self
        ensures { word result ≡ magnitude format (word self) }
    {
        Self::from_bits(self.to_bits() & !Self::SIGN_MASK)
    }

    // One number's magnitude with another's sign.
    fn copysign(self, sign: Self) -> Self
        ensures steps { word result ≡ copysign_word format (word self) (word sign) }
        ensures ieee { SignSet format (negative format (word sign)) (word self) (word result) }
    {
        Self::from_bits(self.without_sign().to_bits() | (sign.to_bits() & Self::SIGN_MASK))
    }

    fn extract_exponent_bits(self) -> Self::Word
        ensures { Self.Word.value result ≡ exponent format (word self) }
    {
        (self.to_bits() & Self::EXPONENT_MASK).moved_down(Self::MANTISSA_BITS)
    }

    // The exponent's value, or 0 where that is negative: by how many places the fraction is moved up.
    fn exponent_clamped(self) -> Self::Word
        ensures { Self.Word.value result ≡ exponent format (word self) - emax format }
    {
        let exponent = self.extract_exponent_bits();
        if exponent < Self::EXPONENT_BIAS {
            return Self::ZERO.to_bits();
        }
        exponent - Self::EXPONENT_BIAS
    }

    // The whole part, with the number's sign bit: the bits below the point are dropped. For |x| under
    // 2^width, 2^32 or 2^64, that is IEEE 754's meaning (`IsTrunc`), and with fract it sums to the
    // number exactly (`parts_sum` of proofs/PartsMeaning.antt); beyond, the shift counts wrap.
    fn trunc(self) -> Self
        ensures steps { word result ≡ trunc_word format (word self) }
        ensures ieee { UnderWidth format (word self) → IsTrunc format (word self) (word result) }
    {
        let w = self.to_bits();
        if self.extract_exponent_bits() < Self::EXPONENT_BIAS {
            return Self::ZERO.copysign(self);
        }
        let count = self.exponent_clamped();
        let below = w.moved_up(count) & Self::MANTISSA_MASK;
        Self::from_bits(w - below.moved_down(count))
    }

    // The fraction part, with the number's sign bit: the whole bits are dropped. For |x| under 2^width
    // that is IEEE 754's meaning (`IsFract`); beyond, the shift counts wrap.
    fn fract(self) -> Self
        ensures steps { word result ≡ fract_word format (word self) }
        ensures ieee { UnderWidth format (word self) → IsFract format (word self) (word result) }
    {
        if self.extract_exponent_bits() < Self::EXPONENT_BIAS {
            return self;
        }
        let below = self.to_bits().moved_up(self.exponent_clamped()) & Self::MANTISSA_MASK;
        // under a leading 1, which is taken off again: what is left moves up by itself
        Self::from_bits(Self::ONE.to_bits() + below)
            .less_one()
            .copysign(self)
    }

    // The square root, estimated by halving the word about that of 1. Of a positive normal number the
    // answer's square lies from just below the number to 9/8 of it (`SqrtBound`); of a number below 0
    // and of a NaN it is a NaN. From +0 up to the infinity the answer never falls as the number grows,
    // and at each normal even power of two it is exact: laws of proofs/EstimateOrder.antt and
    // proofs/SqrtExact.antt.
    // Method: https://bits.stephan-brumme.com/squareRoot.html
    fn sqrt(self) -> Self
        ensures steps { word result ≡ sqrt_word format (word self) }
        ensures bound { Normal format (word self) → SqrtBound format (word self) (word result) }
    {
        if self.is_at_least_zero() {
            return Self::from_bits((self.to_bits() + Self::ONE.to_bits()).half());
        }
        Self::NAN
    }

    // Whether it is at least 0: -0 is, and no NaN is.
    fn is_at_least_zero(self) -> bool
        ensures { result ≡ at_least_zero format (word self) }
    {
        self.to_bits() <= Self::INFINITY.to_bits() || self.to_bits() == Self::SIGN_MASK
    }

    // The inverse, estimated by one subtraction of words that wraps. Turning the number's sign bit
    // turns the answer's and nothing else, of every word, a NaN's too. Where the number's size is from
    // the smallest normal number to its inverse, the answer times the number lies from 1 to 9/8
    // (`InvBound`). From +0 to 2^127, or 2^1023, it falls from each word to the next, and past that it
    // wraps: laws of proofs/EstimateOrder.antt.
    // Method: https://bits.stephan-brumme.com/inverse.html
    fn inv(self) -> Self
        ensures steps { word result ≡ inv_word format (word self) }
        ensures bound { Invertible format (magnitude format (word self)) → InvBound format (word self) (word result) }
        ensures sign { inv_word format (turned_word format (word self)) ≡ turned_word format (word result) }
    {
        Self::from_bits(Self::INV_MAGIC.difference(self.to_bits()))
    }

    // Whether it is an infinity or a NaN.
    fn is_endless(self) -> bool
        ensures { result ≡ is_endless format (word self) }
    {
        self.extract_exponent_bits() == Self::INFINITY.extract_exponent_bits()
    }

    // Whether it is 0 or -0.
    fn is_zero(self) -> bool
        ensures { result ≡ is_zero format (word self) }
    {
        self.without_sign().to_bits() == Self::ZERO.to_bits()
    }

    // Whether it is nearer to 0 than every normal number, and not 0.
    fn is_small(self) -> bool
        ensures { result ≡ is_small format (word self) }
    {
        (self.extract_exponent_bits() == Self::ZERO.to_bits()) & !self.is_zero()
    }

    // Whether it is below 0, which -0 is not.
    fn is_below_zero(self) -> bool
        ensures { result ≡ is_below_zero format (word self) }
    {
        self.is_sign_negative() & !self.is_zero()
    }

    // The width and the constants are the format's.
    ghost width_law: { Self.Word.width ≡ width format };

    ghost zero_law: { word ZERO ≡ 0 };

    ghost one_law: { word ONE ≡ one_word format };

    ghost nan_law: { word NAN ≡ nan_word format };

    ghost infinity_law: { word INFINITY ≡ inf_word format };

    ghost sign_mask_law: { Self.Word.value SIGN_MASK ≡ top format };

    ghost exponent_mask_law: { Self.Word.value EXPONENT_MASK ≡ inf_word format };

    ghost mantissa_mask_law: { Self.Word.value MANTISSA_MASK ≡ hid format - 1 };

    ghost exponent_bias_law: { Self.Word.value EXPONENT_BIAS ≡ emax format };

    ghost mantissa_bits_law: { Self.Word.value MANTISSA_BITS ≡ prec format - 1 };

    ghost inv_magic_law: { Self.Word.value INV_MAGIC ≡ inv_magic format };
}
