// atan2 of two words without a branch, so that a loop over it is compiled to vector code.
ghost use Rattle.std.specs.Prelude.{◌≡◌, false};
ghost use Rattle.std.specs.Float.{binary32};
ghost use Rattle.std.specs.Float.Ieee.{nan_bits, of_bits};
ghost use Rattle.float.specs.Atan2.{ratio, atan2_word};
ghost use Rattle.strip.specs.Reach.{AngleReach};
ghost use Rattle.strip.specs.Steps.{whole_turn, quadrant_word};

use crate::choice;
use float::{F32, atan, steps};
use format::Number;

// Within the gate, where no step meets a NaN.
pub(crate) fn within_gate(y: u32, x: u32) -> u32
    requires { AngleReach y x }
    ensures { result ≡ atan2_word y x }
{
    turned(y, x, f32::to_bits(ratio(y, x)))
}

// Of any two words. Where one is a NaN both are read as zeros, of which the quotient is a NaN too.
pub(crate) fn of_any(y: u32, x: u32) -> u32
    ensures { result ≡ atan2_word y x }
{
    let nan = F32(y).is_nan() | F32(x).is_nan();
    let quotient = ratio(choice::either(nan, 0, y), choice::either(nan, 0, x));
    choice::either(
        quotient != quotient,
        F32::NAN.0,
        turned(y, x, choice::known(quotient)),
    )
}

// The quotient, by the sizes, so that no sign has to be cleared on the way.
fn ratio(y: u32, x: u32) -> f32
    requires { (nan_bits binary32 y ≡ false) × (nan_bits binary32 x ≡ false) }
    ensures { result ≡ ratio (of_bits binary32 y) (of_bits binary32 x) }
{
    let height = f32::from_bits(F32(y).abs().0);
    let across = f32::from_bits(F32(x).abs().0);
    let bent = atan::BEND * across * height;
    let n = bent + height * height;
    n / (across * across + bent + n)
}

// The angle of a quotient, brought to its quadrant by the two signs.
fn turned(y: u32, x: u32, quotient: u32) -> u32
    requires { nan_bits binary32 quotient ≡ false }
    ensures { result ≡ quadrant_word y x quotient }
{
    let left = x & F32::SIGN_MASK;
    let down = y & F32::SIGN_MASK;
    let from = (((!left & down) >> 29) | (left >> 30)) as f32;
    let quarters = from + f32::from_bits((left ^ down) | quotient);
    f32::to_bits(steps::FRAC_PI_2 * (quarters - whole_turn(quarters)))
}

// What is taken off a number of quarters: past 2 of them a whole turn.
fn whole_turn(quarters: f32) -> f32
    ensures { result ≡ whole_turn quarters }
{
    if quarters > 2.0 { 4.0 } else { 0.0 }
}
