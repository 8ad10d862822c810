// The nearest whole number, halves away from zero, for |x| under 2^23 but for the magnitude 3effffff
// (`IsRound`): a half with the number's own sign is added, and the sum is cut.
ghost use Rattle.std.specs.Prelude.{◌≡◌};
ghost use Rattle.std.specs.Float.{binary32};
ghost use Rattle.format.specs.Whole.{round_word};
ghost use Rattle.format.specs.Meaning.{Under23, IsRound};

use crate::{F32, cast};
use format::Number;

impl F32 {
    pub fn round(self) -> F32
        ensures steps { result.0 ≡ round_word binary32 self.0 }
        ensures ieee { Under23 self.0 → IsRound binary32 self.0 result.0 }
    {
        let half = F32(0x3f00_0000).copysign(self);
        let sum = F32::of(self.value() + half.value());
        F32::of(cast::from_i32(sum.to_i32()))
    }
}
