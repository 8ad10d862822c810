// The refusals 1, 2, 9, 3, 4 and 5: when each holds, and which is the first in this order.
ghost use Rattle.std.specs.Prelude.{◌≡◌, ◌&&◌, [], ◌∷◌};
ghost use Rattle.std.specs.Float.{binary32};
ghost use Rattle.format.specs.Classes.{is_endless, is_zero, is_small, is_below_zero};
ghost use Rattle.format.specs.First.{among};
ghost use Rattle.refusals.specs.Given.{refusal_given};
ghost use Rattle.guard.specs.Operations.{op_powi};
ghost use Rattle.guard.specs.Refusals.{is_past_power, two_floats, refuses_zero, refuses_small, refuses_sign, refusal_behind};

use crate::gate::Gate;
use crate::{gate, number};
use float::F32;
use format::Number;
use refusals::Refusal;

// The first refusal that holds behind the operation's gate, if one does. The gate comes from the
// caller: one that names its operation has the row folded in, and one that has many words for an
// operation reads it once. The operation is a number, here and below: any may come.
#[tactic(auto, unfolding(crate::specs::Refusals::refusal_behind))]
pub fn first(gate: Gate, op: u32, a: F32, b: u32) -> Result<(), Refusal>
    ensures { refusal_given result ≡ refusal_behind gate op a.0 b }
{
    if a.is_endless() {
        return Err(Refusal::NotFinite);
    }
    if is_second_refused(op, b) {
        return Err(Refusal::NotFinite);
    }
    if is_zero_refused(op, a) {
        return Err(Refusal::Zero);
    }
    if is_small_refused(op, a) {
        return Err(Refusal::Small);
    }
    if is_sign_refused(op, a) {
        return Err(Refusal::Negative);
    }
    if !gate::passes(gate, gate::judged(op, a, F32(b))) {
        return Err(Refusal::Outside);
    }
    if is_power_refused(op, b) {
        return Err(Refusal::PowerOutside);
    }
    Ok(())
}

fn is_second_refused(op: u32, b: u32) -> bool
    ensures { result ≡ (two_floats op && is_endless binary32 b) }
{
    takes_two_floats(op) & F32(b).is_endless()
}

// A list of operations, as `refuses_zero` is another.
fn takes_two_floats(op: u32) -> bool
    ensures { result ≡ two_floats op }
{
    match op {
        number::COPYSIGN => true,
        number::POWF => true,
        number::ATAN2 => true,
        number::HYPOT => true,
        number::REM_EUCLID => true,
        number::DIV_EUCLID => true,
        _ => false,
    }
}

fn is_zero_refused(op: u32, a: F32) -> bool
    ensures { result ≡ (refuses_zero op && is_zero binary32 a.0) }
{
    refuses_zero(op) & a.is_zero()
}

fn refuses_zero(op: u32) -> bool
    ensures { result ≡ refuses_zero op }
{
    match op {
        number::INVSQRT => true,
        number::INV => true,
        number::RECIP => true,
        number::LN => true,
        number::POWI => true,
        number::POWF => true,
        _ => false,
    }
}

// sqrt answers a zero, and takes no small number.
fn is_small_refused(op: u32, a: F32) -> bool
    ensures { result ≡ (refuses_small op && is_small binary32 a.0) }
{
    ((op == number::SQRT) | refuses_zero(op)) & a.is_small()
}

fn is_sign_refused(op: u32, a: F32) -> bool
    ensures { result ≡ (refuses_sign op && is_below_zero binary32 a.0) }
{
    refuses_sign(op) & a.is_below_zero()
}

fn refuses_sign(op: u32) -> bool
    ensures { result ≡ refuses_sign op }
{
    match op {
        number::SQRT => true,
        number::INVSQRT => true,
        number::LN => true,
        number::POWF => true,
        _ => false,
    }
}

// powi takes powers up to 2^20 either way: moved up by that many, a power is from 0 to 2^21.
const POWERS: u32 = 0x0010_0000;

fn is_power_refused(op: u32, n: u32) -> bool
    ensures { result ≡ (among (op_powi ∷ []) op && is_past_power n) }
{
    if op == number::POWI {
        return n.wrapping_add(POWERS) > 2 * POWERS;
    }
    false
}
