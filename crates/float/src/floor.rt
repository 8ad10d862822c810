// The largest whole number not above a number, for |x| to 2^31 (`IsFloor`); beyond, the cast to an
// integer saturates, and a NaN gives +0.
ghost use Rattle.std.specs.Prelude.{◌≡◌};
ghost use Rattle.std.specs.Float.{binary32};
ghost use Rattle.format.specs.Whole.{floor_word};
ghost use Rattle.format.specs.Meaning.{To31, IsFloor};
ghost use Rattle.float.specs.Marks.{mark_of};

use crate::mark::Marked;
use crate::{F32, cast};

impl F32 {
    pub fn floor(self) -> F32
        ensures steps { result.0 ≡ floor_word binary32 self.0 }
        ensures ieee { To31 self.0 → IsFloor binary32 self.0 result.0 }
    {
        let whole = cast::from_i32(self.to_i32());
        let below = if self.value() < whole {
            whole - 1.0
        } else {
            whole
        };
        F32::of(below)
    }

    // The same, with the mark of the cast.
    pub fn floor_marked(self) -> Marked<F32>
        ensures steps { result.value.0 ≡ floor_word binary32 self.0 }
        ensures ieee { To31 self.0 → IsFloor binary32 self.0 result.value.0 }
        ensures mark { result.mark ≡ mark_of self.0 }
    {
        Marked {
            value: self.floor(),
            mark: self.cast_marked().mark,
        }
    }
}
