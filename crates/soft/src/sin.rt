// The sine of a number in radians: the cosine a quarter turn back.
ghost use Rattle.std.specs.Prelude.{◌≡◌};
ghost use Rattle.float.specs.Engine.{ieee};
ghost use Rattle.float.specs.Cos.{sin_word};
ghost use Rattle.soft.specs.Words.{soft};

use crate::{add, cos};
use float::F32;

pub fn sin(w: u32) -> u32
    ensures steps { result ≡ sin_word soft w }
    ensures same { result ≡ sin_word ieee w }
{
    cos::cos(add::sub(w, F32::FRAC_PI_2.0))
}
