// 1 with the operand's sign bit, zeros too, and a NaN for a NaN.
ghost use Rattle.std.specs.Prelude.{◌≡◌};
ghost use Rattle.std.specs.Float.{binary32};
ghost use Rattle.format.specs.Sign.{signum_word};

use crate::F32;
use format::Number;

impl F32 {
    pub fn signum(self) -> F32
        ensures { result.0 ≡ signum_word binary32 self.0 }
    {
        if self.is_nan() {
            F32::NAN
        } else {
            F32::ONE.copysign(self)
        }
    }
}
