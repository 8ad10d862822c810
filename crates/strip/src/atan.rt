// The arctangent of a word without a branch, so that a loop over it is compiled to vector code.
ghost use Rattle.std.specs.Prelude.{◌≡◌, false, ◌<◌};
ghost use Rattle.std.specs.Float.{binary32};
ghost use Rattle.std.specs.Float.Ieee.{nan_bits, of_bits};
ghost use Rattle.format.specs.Fields.{magnitude};
ghost use Rattle.float.specs.Engine.{ieee};
ghost use Rattle.float.specs.Atan.{first_quadrant, atan_word};
ghost use Rattle.strip.specs.Steps.{signed_word};

use crate::choice;
use float::{F32, atan, steps};
use format::Number;

// Within the gate, where no step meets a NaN.
pub(crate) fn within_gate(w: u32) -> u32
    requires { magnitude binary32 w < 0x5f80_0000 }
    ensures { result ≡ atan_word ieee w }
{
    signed(w, f32::to_bits(slope(w)))
}

// Of any word. A NaN is read as 0, and its answer is not looked at.
pub(crate) fn of_any(w: u32) -> u32
    ensures { result ≡ atan_word ieee w }
{
    let nan = F32(w).is_nan();
    let quotient = slope(choice::either(nan, 0, w));
    choice::either(
        nan | (quotient != quotient),
        F32::NAN.0,
        signed(w, choice::known(quotient)),
    )
}

// The quotient, by the size, so that no sign has to be cleared on the way.
fn slope(w: u32) -> f32
    requires { nan_bits binary32 w ≡ false }
    ensures { result ≡ first_quadrant ieee (of_bits binary32 w) }
{
    let size = f32::from_bits(F32(w).abs().0);
    let bent = atan::BEND * size;
    let n = bent + size * size;
    n / (1.0 + bent + n)
}

// The angle of a quotient, with the word's sign.
fn signed(w: u32, quotient: u32) -> u32
    requires { nan_bits binary32 quotient ≡ false }
    ensures { result ≡ signed_word w quotient }
{
    f32::to_bits(steps::FRAC_PI_2 * f32::from_bits((w & F32::SIGN_MASK) | quotient))
}
