// The cosine of a number in radians, by a parabola in turns: the first engine's steps on this one.
ghost use Rattle.std.specs.Prelude.{◌≡◌};
ghost use Rattle.float.specs.Engine.{ieee};
ghost use Rattle.float.specs.Cos.{cos_word};
ghost use Rattle.soft.specs.Words.{soft};

use crate::{add, floor, mul};
use float::F32;
use format::Number;

// Half of 1/PI: one turn is 2 PI.
const TURN: u32 = 0x3e22_f983;

// 0.225, the share of the parabola's own square that mends it.
const MENDS: u32 = 0x3e66_6666;

const QUARTER: u32 = 0x3e80_0000;

const HALF: u32 = 0x3f00_0000;

const SIXTEEN: u32 = 0x4180_0000;

pub fn cos(w: u32) -> u32
    ensures steps { result ≡ cos_word soft w }
    ensures same { result ≡ cos_word ieee w }
{
    let turns = mul::mul(w, TURN);
    let whole = floor::floor(add::add(turns, QUARTER));
    let part = add::sub(turns, add::add(QUARTER, whole));
    let distance = F32(part).without_sign().0;
    let curve = mul::mul(part, mul::mul(SIXTEEN, add::sub(distance, HALF)));
    let height = F32(curve).without_sign().0;
    let mended = mul::mul(mul::mul(MENDS, curve), add::sub(height, F32::ONE.0));
    add::add(curve, mended)
}
