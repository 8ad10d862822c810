// E raised to a number: a power of 2, whose whole exponent is set as bits and the rest found by a
// series.
// Method: https://stackoverflow.com/a/6985769/2036035, and the series: https://stackoverflow.com/a/6984495
ghost use Rattle.std.specs.Prelude.{◌≡◌, ◌+ℤ◌};
ghost use Rattle.float.specs.Exp.{series, clipped, scaled_word, power_word, exp_word};

use crate::{F32, steps};
use format::Number;

// As the language's own floats.
const E: f32 = 2.7182817;

const LOG2_E: f32 = 1.442695;

impl F32 {
    #[tactic(auto, unfolding(crate::specs::Exp::exp_word))]
    pub fn exp(self) -> F32
        ensures { result.0 ≡ exp_word self.0 }
    {
        let x = self.value();
        if x == 0.0 {
            return F32::ONE;
        }
        if steps::is_at(x, 1.0) {
            return F32::E;
        }
        if steps::is_at(x, -1.0) {
            return F32::of(1.0 / E);
        }
        power(F32::of(x * LOG2_E))
    }
}

// 2 raised to a number.
fn power(log: F32) -> F32
    ensures { result.0 ≡ power_word log.0 }
{
    let part = F32::of(series(log.fract().value() * steps::LN_2));
    let whole = log.trunc().to_i32();
    scaled(part, part.extract_exponent_value().saturating_add(whole))
}

// E raised to a number near 0, between -LN_2 and LN_2.
#[tactic(auto, unfolding(crate::specs::Exp::series))]
fn series(s: f32) -> f32
    ensures { result ≡ series s }
{
    let fourth = 1.0 + s / 4.0 * 1.0;
    let third = 1.0 + s / 3.0 * fourth;
    let second = 1.0 + s / 2.0 * third;
    1.0 + s / 1.0 * second
}

// The number with another exponent, where a word has it.
fn scaled(x: F32, exponent: i32) -> F32
    ensures { result.0 ≡ scaled_word x.0 exponent }
{
    if exponent < -127 {
        return F32::ZERO;
    }
    if exponent > 128 {
        return F32::INFINITY;
    }
    F32::of(x.set_exponent(exponent).value())
}
