// The refusals of doubles: when each holds, and which is the first in the order 1, 2, 9, 3, 4.
ghost use Rattle.std.specs.Prelude.{◌≡◌, ◌&&◌};
ghost use Rattle.std.specs.Float.{binary64};
ghost use Rattle.format.specs.Classes.{is_endless, is_zero, is_small, is_below_zero};
ghost use Rattle.refusals.specs.Given.{refusal_given};
ghost use Rattle.double.specs.Refusals.{refuses_zero, refuses_small, refuses_sign, refusal_behind};

use crate::{F64, gate, number};
use format::Number;
use refusals::Refusal;

// The first refusal that holds behind the operation's gate, if one does. The gate comes from the
// caller: one that names its operation has the row folded in. Any number may come for an operation.
#[tactic(auto, unfolding(crate::specs::Refusals::refusal_behind))]
pub fn first(gate: u64, op: u32, a: F64) -> Result<(), Refusal>
    ensures { refusal_given result ≡ refusal_behind gate op a.0 }
{
    if a.is_endless() {
        return Err(Refusal::NotFinite);
    }
    if is_zero_refused(op, a) {
        return Err(Refusal::Zero);
    }
    if is_small_refused(op, a) {
        return Err(Refusal::Small);
    }
    if is_sign_refused(op, a) {
        return Err(Refusal::Negative);
    }
    if gate::passes(gate, a) {
        return Ok(());
    }
    Err(Refusal::Outside)
}

fn is_zero_refused(op: u32, a: F64) -> bool
    ensures { result ≡ (refuses_zero op && is_zero binary64 a.0) }
{
    (op == number::INV) & a.is_zero()
}

// sqrt answers a zero, and takes no small number.
fn is_small_refused(op: u32, a: F64) -> bool
    ensures { result ≡ (refuses_small op && is_small binary64 a.0) }
{
    ((op == number::SQRT) | (op == number::INV)) & a.is_small()
}

fn is_sign_refused(op: u32, a: F64) -> bool
    ensures { result ≡ (refuses_sign op && is_below_zero binary64 a.0) }
{
    (op == number::SQRT) & a.is_below_zero()
}
