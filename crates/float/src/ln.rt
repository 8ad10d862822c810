// The natural logarithm: the exponent times ln 2, and a polynomial for what is left, from 1 to 2. A
// number below 1 goes through inv and loses what inv does.
// Method: https://stackoverflow.com/a/44232045/
ghost use Rattle.std.specs.Prelude.{◌≡◌};
ghost use Rattle.float.specs.Ln.{polynomial, logarithm, ln_word};

use crate::{F32, cast, steps};
use format::Number;

impl F32 {
    #[tactic(auto, unfolding(crate::specs::Ln::ln_word))]
    pub fn ln(self) -> F32
        ensures steps { result.0 ≡ ln_word self.0 }
    {
        let x = self.value();
        if steps::is_at(x, 1.0) {
            return F32::ZERO;
        }
        if x < 1.0 {
            return F32::of(-logarithm(self.inv()));
        }
        F32::of(logarithm(self))
    }
}

// For a number from 1 on. The exponent counts as unsigned: a negative one gains 2^32.
fn logarithm(x: F32) -> f32
    ensures { result ≡ logarithm x.0 }
{
    let power = cast::from_u32(cast::bits_of_i32(x.extract_exponent_value()));
    let rest = x.value() / F32(x.0 & F32::EXPONENT_MASK).value();
    power * steps::LN_2 + polynomial(rest)
}

// The logarithm of z from 1 to 2, with the numbers that Remez's algorithm made.
#[tactic(auto, unfolding(crate::specs::Ln::polynomial))]
fn polynomial(z: f32) -> f32
    ensures { result ≡ polynomial z }
{
    -1.7417939 + (2.8212026 + (-1.4699568 + (0.44717955 - 0.056570851 * z) * z) * z) * z
}
