// The inverse: an estimate by one subtraction of words that wraps, corrected by a polynomial of the
// seventh degree in the estimate times the number.
ghost use Rattle.std.specs.Prelude.{◌≡◌};
ghost use Rattle.float.specs.Recip.{side, correction, recip_word};

use crate::F32;
use format::words::Word;

const RECIP_MAGIC: u32 = 0x7ef1_27ea;

impl F32 {
    #[tactic(auto, unfolding(crate::specs::Recip::recip_word))]
    pub fn recip(self) -> F32
        ensures steps { result.0 ≡ recip_word self.0 }
    {
        let x = self.value();
        let side = side(x);
        let magnitude = x * side;
        let estimate = F32(RECIP_MAGIC.difference(F32::of(magnitude).0)).value();
        F32::of(estimate * correction(magnitude * estimate) * side)
    }
}

fn side(x: f32) -> f32
    ensures { result ≡ side x }
{
    if x < 0.0 {
        return -1.0;
    }
    1.0
}

// With w the product of a number and an estimate of its inverse, what the estimate is to be
// multiplied by.
#[tactic(auto, unfolding(crate::specs::Recip::correction))]
fn correction(w: f32) -> f32
    ensures { result ≡ correction w }
{
    8.0 + w * (-28.0 + w * (56.0 + w * (-70.0 + w * (56.0 + w * (-28.0 + w * (8.0 - w))))))
}
