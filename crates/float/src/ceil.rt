// The smallest whole number not below a number, for |x| to 2^31 (`IsCeil`): the floor with the sign
// turned before and after, so that a zero is -0.
ghost use Rattle.std.specs.Prelude.{◌≡◌};
ghost use Rattle.std.specs.Float.{binary32};
ghost use Rattle.format.specs.Sign.{turned_word};
ghost use Rattle.format.specs.Whole.{ceil_word};
ghost use Rattle.format.specs.Meaning.{To31, IsCeil};
ghost use Rattle.float.specs.Marks.{mark_of};

use crate::F32;
use crate::mark::Marked;
use format::Number;

impl F32 {
    pub fn ceil(self) -> F32
        ensures steps { result.0 ≡ ceil_word binary32 self.0 }
        ensures ieee { To31 self.0 → IsCeil binary32 self.0 result.0 }
    {
        let down = F32(self.0 ^ F32::SIGN_MASK).floor();
        F32(down.0 ^ F32::SIGN_MASK)
    }

    // The same, with the mark of the cast, which is one of the number with its sign turned.
    pub fn ceil_marked(self) -> Marked<F32>
        ensures steps { result.value.0 ≡ ceil_word binary32 self.0 }
        ensures ieee { To31 self.0 → IsCeil binary32 self.0 result.value.0 }
        ensures mark { result.mark ≡ mark_of (turned_word binary32 self.0) }
    {
        let down = F32(self.0 ^ F32::SIGN_MASK).floor_marked();
        Marked {
            value: F32(down.value.0 ^ F32::SIGN_MASK),
            mark: down.mark,
        }
    }
}
