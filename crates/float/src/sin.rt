// The sine of a number in radians: the cosine a quarter turn back. It lies from -1 to 1 where the
// number is at most 4bc90fda in size: a law of `sizes`, CosWithin.antt.
ghost use Rattle.std.specs.Prelude.{◌≡◌};
ghost use Rattle.float.specs.Engine.{ieee};
ghost use Rattle.float.specs.Cos.{sin_word};

use crate::{F32, steps};

impl F32 {
    #[tactic(auto, unfolding(crate::specs::Cos::sin_word))]
    pub fn sin(self) -> F32
        ensures { result.0 ≡ sin_word ieee self.0 }
    {
        F32::of(self.value() - steps::FRAC_PI_2).cos()
    }
}
