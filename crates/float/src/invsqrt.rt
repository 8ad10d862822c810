// The inverse of the square root, estimated by one subtraction of words that wraps. Of a positive
// normal number x the answer's square times x lies from 0.93 to 1.07 (`InvsqrtBound`), and to six
// places from 0.932450 to 1.069107 (`InvsqrtTight`). From +0 up to the infinity it never rises as
// the number grows: a law of `format`, EstimateOrder.antt.
// Method: https://bits.stephan-brumme.com/invSquareRoot.html
ghost use Rattle.std.specs.Prelude.{◌≡◌};
ghost use Rattle.std.specs.Float.{binary32};
ghost use Rattle.format.specs.Estimates.{invsqrt_word, Normal, InvsqrtBound, InvsqrtTight};

use crate::F32;
use format::words::Word;

const INVSQRT_MAGIC: u32 = 0x5f37_5a86;

impl F32 {
    #[tactic(auto, using(format::proofs::Invsqrt::invsqrt_bound, format::proofs::Invsqrt::invsqrt_tight))]
    pub fn invsqrt(self) -> F32
        ensures steps { result.0 ≡ invsqrt_word self.0 }
        ensures bound { Normal binary32 self.0 → InvsqrtBound self.0 result.0 }
        ensures tight { Normal binary32 self.0 → InvsqrtTight self.0 result.0 }
    {
        F32(INVSQRT_MAGIC.difference(self.0 >> 1))
    }
}
