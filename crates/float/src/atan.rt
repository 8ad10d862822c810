// The arctangent of a number, in radians and as a share of a quarter turn, by a quotient of parabolas.
// Where the number is under 2^64 in size both are odd to the bit, and lie from -PI/2 to PI/2 and from
// -1 to 1: laws of `sizes`, AtanOdd.antt. From there on they are a NaN.
// Method: https://ieeexplore.ieee.org/document/6375931
ghost use Rattle.std.specs.Prelude.{◌≡◌};
ghost use Rattle.float.specs.Engine.{ieee};
ghost use Rattle.float.specs.Atan.{atan_norm_word, atan_word};

use crate::{F32, steps};
use format::Number;

// By how much the curve bends.
pub const BEND: f32 = 0.596227;

impl F32 {
    #[tactic(auto, unfolding(crate::specs::Atan::atan_word))]
    pub fn atan(self) -> F32
        ensures { result.0 ≡ atan_word ieee self.0 }
    {
        F32::of(steps::FRAC_PI_2 * self.atan_norm().value())
    }

    // The quotient is found without the sign, which is or-ed onto it.
    #[tactic(auto, using(crate::proofs::Signs::nan_answered, crate::proofs::Signs::or_answered), unfolding(crate::specs::Atan::atan_norm_word))]
    pub fn atan_norm(self) -> F32
        ensures { result.0 ≡ atan_norm_word ieee self.0 }
    {
        let x = self.value();
        let bent = steps::abs_of(BEND * x);
        let n = bent + x * x;
        let quotient = F32::of(n / (1.0 + bent + n));
        if quotient.is_nan() {
            return F32::NAN;
        }
        F32((self.0 & F32::SIGN_MASK) | quotient.0)
    }
}
