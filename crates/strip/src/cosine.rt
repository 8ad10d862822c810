// The cosine and the sine of a word whose number is small, without a branch, for the loop over a strip.
// The steps are those of `float::cos`. Within the bounds no step is a NaN, so none is tested for, and
// the whole part is had by sums in place of a cast.
ghost use Rattle.std.specs.Prelude.{◌≤◌, ◌≡◌, false, T};
ghost use Rattle.std.specs.Float.{binary32};
ghost use Rattle.std.specs.Float.Ieee.{fits, is_nan, to_bits};
ghost use Rattle.format.specs.Fields.{magnitude};
ghost use Rattle.float.specs.Engine.{ieee, abs_of, floor_of};
ghost use Rattle.float.specs.Cos.{cos_word, sin_word};

use float::cos::{MENDS, TURN};
use float::steps::FRAC_PI_2;

// 3 * 2^22: with a small number added it lies between 2^23 and 2^24, where numbers are 1 apart.
const SHIFT: f32 = 12582912.0;

// For a size up to 1024.
pub(crate) fn cos(w: u32) -> u32
    requires { magnitude binary32 w ≤ 0x4480_0000 }
    ensures { result ≡ cos_word ieee w }
{
    let turns = f32::from_bits(w) * TURN;
    let part = turns - (0.25 + floor(turns + 0.25));
    let curve = part * (16.0 * (size(part) - 0.5));
    f32::to_bits(curve + MENDS * curve * (size(curve) - 1.0))
}

// A quarter turn back, for a size up to 256.
pub(crate) fn sin(w: u32) -> u32
    requires { magnitude binary32 w ≤ 0x4380_0000 }
    ensures { result ≡ sin_word ieee w }
{
    cos(f32::to_bits(f32::from_bits(w) - FRAC_PI_2))
}

// The largest whole number not above x, for a size up to 2^21: SHIFT added and taken away leaves a whole
// number next to x, and that is one too many where it lies above.
fn floor(x: f32) -> f32
    requires { T (fits binary32 x) × (magnitude binary32 (to_bits binary32 x) ≤ 0x4a00_0000) }
    ensures { result ≡ floor_of ieee x }
{
    let near = (x + SHIFT) - SHIFT;
    if x < near { near - 1.0 } else { near }
}

// The number without its sign.
fn size(x: f32) -> f32
    requires { T (fits binary32 x) × (is_nan x ≡ false) }
    ensures { result ≡ abs_of ieee x }
{
    f32::from_bits(f32::to_bits(x) & 0x7fff_ffff)
}
