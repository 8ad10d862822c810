// The angle of a point, from its two coordinates, in all four quadrants.
// Method: https://ieeexplore.ieee.org/document/6375931
ghost use Rattle.std.specs.Prelude.{◌≡◌};
ghost use Rattle.float.specs.Atan2.{offset, quarters, atan2_word};

use crate::{F32, atan, cast, steps};
use format::Number;

impl F32 {
    // The number is y, its operand x. Of two zeros the answer is a NaN.
    #[tactic(auto, unfolding(crate::specs::Atan2::atan2_word))]
    pub fn atan2(self, rhs: F32) -> F32
        ensures { result.0 ≡ atan2_word self.0 rhs.0 }
    {
        let quarters = quarters(self, rhs);
        if quarters > 2.0 {
            return F32::of(steps::FRAC_PI_2 * (quarters - 4.0));
        }
        F32::of(steps::FRAC_PI_2 * quarters)
    }
}

#[tactic(auto, using(crate::proofs::Signs::signs_or), unfolding(crate::specs::Atan2::quarters))]
fn quarters(y: F32, x: F32) -> f32
    ensures { result ≡ quarters y.0 x.0 }
{
    let height = y.value();
    let across = x.value();
    let bent = steps::abs_of(atan::BEND * across * height);
    let n = bent + height * height;
    let quotient = F32::of(n / (across * across + bent + n));
    let sign = (x.0 & F32::SIGN_MASK) ^ (y.0 & F32::SIGN_MASK);
    cast::from_u32(offset(y, x)) + F32(sign | quotient.0).value()
}

// 0, 2 or 4: from where the quotient counts, in quarter turns.
#[tactic(auto, using(crate::proofs::Signs::offset_is))]
fn offset(y: F32, x: F32) -> u32
    ensures { result ≡ offset y.0 x.0 }
{
    let left = x.0 & F32::SIGN_MASK;
    let down = y.0 & F32::SIGN_MASK;
    ((!left & down) >> 29) | (left >> 30)
}
