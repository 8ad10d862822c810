// The hypotenuse over two words without a branch, so that a loop over it is compiled to vector code.
ghost use Rattle.std.specs.Prelude.{◌≡◌, false};
ghost use Rattle.std.specs.Float.{binary32};
ghost use Rattle.std.specs.Float.Ieee.{nan_bits};
ghost use Rattle.float.specs.Hypot.{hypot_word};

use crate::choice;
use float::F32;
use format::Number;

// Of two words that are no NaNs, as all within the gate.
pub(crate) fn of_numbers(w: u32, v: u32) -> u32
    requires { (nan_bits binary32 w ≡ false) × (nan_bits binary32 v ≡ false) }
    ensures { result ≡ hypot_word w v }
{
    let x = f32::from_bits(w);
    let y = f32::from_bits(v);
    (f32::to_bits(x * x + y * y) + F32::ONE.0) >> 1
}

// Of any two words. Where one is a NaN both are read as zeros, and their answer is not looked at.
pub(crate) fn of_any(w: u32, v: u32) -> u32
    ensures { result ≡ hypot_word w v }
{
    let nan = F32(w).is_nan() | F32(v).is_nan();
    choice::either(
        nan,
        F32::NAN.0,
        of_numbers(choice::either(nan, 0, w), choice::either(nan, 0, v)),
    )
}
