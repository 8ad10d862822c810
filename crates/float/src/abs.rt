// The absolute value: the sign bit cleared, every other bit as it was.
// Method: https://bits.stephan-brumme.com/absFloat.html
ghost use Rattle.std.specs.Prelude.{◌≡◌, false};
ghost use Rattle.std.specs.Float.{binary32};
ghost use Rattle.format.specs.Sign.{abs_word, SignSet};

use crate::F32;
use format::Number;

impl F32 {
    pub fn abs(self) -> F32
        ensures steps { result.0 ≡ abs_word binary32 self.0 }
        ensures ieee { SignSet binary32 false self.0 result.0 }
    {
        self.without_sign()
    }
}
