// The arctangent of a number, in radians and as a share of a quarter turn: the first engine's steps on
// this one.
ghost use Rattle.std.specs.Prelude.{◌≡◌};
ghost use Rattle.float.specs.Engine.{ieee};
ghost use Rattle.float.specs.Atan.{atan_norm_word, atan_word};
ghost use Rattle.soft.specs.Words.{soft};

use crate::{add, div, mul};
use float::F32;
use format::Number;

// 0.596227, by which the curve bends.
const BEND: u32 = 0x3f18_a255;

pub fn atan(w: u32) -> u32
    ensures steps { result ≡ atan_word soft w }
    ensures same { result ≡ atan_word ieee w }
{
    mul::mul(F32::FRAC_PI_2.0, atan_norm(w))
}

pub fn atan_norm(w: u32) -> u32
    ensures steps { result ≡ atan_norm_word soft w }
    ensures same { result ≡ atan_norm_word ieee w }
{
    let bent = F32(mul::mul(BEND, w)).without_sign().0;
    let n = add::add(bent, mul::mul(w, w));
    let quotient = div::div(n, add::add(add::add(F32::ONE.0, bent), n));
    if F32(quotient).is_nan() {
        F32::NAN.0
    } else {
        (w & F32::SIGN_MASK) | quotient
    }
}
