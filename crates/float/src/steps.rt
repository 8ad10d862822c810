// Steps that the kernels share, from a number to a number, and the number type's constants as the
// language's own floats.
ghost use Rattle.std.specs.Prelude.{◌≡◌};
ghost use Rattle.float.specs.Engine.{ieee, abs_of, floor_of};
ghost use Rattle.float.specs.Rounded.{is_at};

use crate::F32;

pub const EPSILON: f32 = 0.00000011920929;

pub const LN_2: f32 = 0.6931472;

pub const PI: f32 = 3.1415927;

pub const FRAC_PI_2: f32 = 1.5707964;

pub fn abs_of(x: f32) -> f32
    ensures { result ≡ abs_of ieee x }
{
    F32::of(x).abs().value()
}

pub fn floor_of(x: f32) -> f32
    ensures { result ≡ floor_of ieee x }
{
    F32::of(x).floor().value()
}

// Whether two numbers are less than EPSILON apart.
pub fn is_at(x: f32, y: f32) -> bool
    ensures { result ≡ is_at x y }
{
    abs_of(x - y) < EPSILON
}
