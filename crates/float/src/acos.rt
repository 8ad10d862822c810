// The arccosine of a number, in radians: the arctangent of the other leg, whose root is sqrt's
// estimate, over the number.
ghost use Rattle.std.specs.Prelude.{◌≡◌};
ghost use Rattle.float.specs.Acos.{slope_word, acos_word};

use crate::{F32, steps};
use format::Number;

impl F32 {
    #[tactic(auto, unfolding(crate::specs::Acos::acos_word))]
    pub fn acos(self) -> F32
        ensures { result.0 ≡ acos_word self.0 }
    {
        let x = self.value();
        if x > 0.0 {
            return slope(self).atan();
        }
        if x == 0.0 {
            return F32::FRAC_PI_2;
        }
        F32::of(slope(self).atan().value() + steps::PI)
    }
}

fn slope(x: F32) -> F32
    ensures { result.0 ≡ slope_word x.0 }
{
    let across = x.value();
    F32::of(F32::of(1.0 - across * across).sqrt().value() / across)
}
