// The length of the hypotenuse over two sides: the sum of their squares, and sqrt's estimate of its
// root.
ghost use Rattle.std.specs.Prelude.{◌≡◌};
ghost use Rattle.float.specs.Hypot.{hypot_word};

use crate::F32;
use format::Number;

impl F32 {
    #[tactic(auto, unfolding(crate::specs::Hypot::hypot_word))]
    pub fn hypot(self, rhs: F32) -> F32
        ensures steps { result.0 ≡ hypot_word self.0 rhs.0 }
    {
        let x = self.value();
        let y = rhs.value();
        F32::of(x * x + y * y).sqrt()
    }
}
