// The cosine of a number in radians, by a parabola in turns. It lies from -1 to 1 where the number is
// at most 4bc90fdb in size, some 2^22 turns: a law of `sizes`, CosWithin.antt.
// Method: https://stackoverflow.com/posts/28050328/revisions, after Nick Capen:
// https://web.archive.org/web/20180105200343if_/http://forum.devmaster.net/t/fast-and-accurate-sine-cosine/9648
ghost use Rattle.std.specs.Prelude.{◌≡◌};
ghost use Rattle.float.specs.Engine.{ieee};
ghost use Rattle.float.specs.Cos.{cos_word};

use crate::{F32, steps};

// Half of 1/PI: one turn is 2 PI.
pub const TURN: f32 = 0.15915494;

// The share of the parabola's own square that mends it.
pub const MENDS: f32 = 0.225;

impl F32 {
    pub fn cos(self) -> F32
        ensures { result.0 ≡ cos_word ieee self.0 }
    {
        F32(of_word(self.0))
    }
}

// The same from a word to a word. A caller hands over a plain number and keeps no place on its stack for
// it, so the call by number stays small enough for the loop of a strip, and the compiler sees two calls
// with one word as one.
#[tactic(auto, unfolding(crate::specs::Cos::cos_word))]
pub fn of_word(w: u32) -> u32
    ensures { result ≡ cos_word ieee w }
{
    let turns = F32(w).value() * TURN;
    let part = turns - (0.25 + steps::floor_of(turns + 0.25));
    let curve = part * (16.0 * (steps::abs_of(part) - 0.5));
    F32::of(curve + MENDS * curve * (steps::abs_of(curve) - 1.0)).0
}
