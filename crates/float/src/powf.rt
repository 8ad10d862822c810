// A number raised to a power that is a number: E raised to the power times the logarithm. Below 0
// the power must be whole, and the crate takes 0.5 for whole and even.
ghost use Rattle.std.specs.Prelude.{◌≡◌};
ghost use Rattle.float.specs.Powf.{raised_word, powf_word};

use crate::F32;
use format::Number;

impl F32 {
    #[tactic(auto, unfolding(crate::specs::Powf::powf_word))]
    pub fn powf(self, n: F32) -> F32
        ensures { result.0 ≡ powf_word self.0 n.0 }
    {
        if self.value() >= 0.0 {
            return raised(self, n);
        }
        if !n.is_integer() {
            return F32::NAN;
        }
        let size = raised(self.without_sign(), n);
        if n.is_even() {
            return size;
        }
        F32::of(-size.value())
    }
}

fn raised(x: F32, n: F32) -> F32
    ensures { result.0 ≡ raised_word x.0 n.0 }
{
    F32::of(n.value() * x.ln().value()).exp()
}
