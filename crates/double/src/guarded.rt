// The light gate of doubles: a call gives a number, which is never a NaN, or one numbered refusal.
ghost use Rattle.std.specs.Prelude.{◌≡◌, true};
ghost use Rattle.std.specs.Float.{binary64};
ghost use Rattle.format.specs.Meaning.{IsTrunc, IsFract};
ghost use Rattle.format.specs.Estimates.{SqrtBound, InvBound};
ghost use Rattle.double.specs.Operations.{op_trunc, op_fract, op_sqrt, op_inv, is_known, value_of};
ghost use Rattle.refusals.specs.Given.{Answered};
ghost use Rattle.double.specs.Guarded.{word_in, Guards, TurnsSign, GuardsByNumber};

use crate::{F64, gate, number, refusal};
use format::Number;
use refusals::Refusal;

// What a guarded call gives: a number, or why there is none.
pub type Double = Result<f64, Refusal>;

// The answer's word. A refusal's is 0.
pub fn word(answer: Double) -> u64
    ensures { result ≡ word_in answer }
{
    answer.map_or(0, |x| F64::of(x).0)
}

// The whole part, with the operand's sign bit.
pub fn trunc(x: F64) -> Double
    ensures gate { Guards op_trunc x.0 result }
    ensures ieee { Answered result → IsTrunc binary64 x.0 (word_in result) }
{
    answered(number::TRUNC, x, x.trunc())
}

// The fraction part, with the operand's sign bit.
pub fn fract(x: F64) -> Double
    ensures gate { Guards op_fract x.0 result }
    ensures ieee { Answered result → IsFract binary64 x.0 (word_in result) }
{
    answered(number::FRACT, x, x.fract())
}

// About the square root. A zero is its own, and there the guarded form parts from the raw one.
pub fn sqrt(x: F64) -> Double
    ensures gate { Guards op_sqrt x.0 result }
    ensures bound { Answered result → SqrtBound binary64 x.0 (word_in result) }
{
    answered(number::SQRT, x, root(x))
}

// About 1/x, of either sign: the sign turned turns the answer's, and changes no refusal.
pub fn inv(x: F64) -> Double
    ensures gate { Guards op_inv x.0 result }
    ensures bound { Answered result → InvBound binary64 x.0 (word_in result) }
    ensures sign { TurnsSign op_inv x.0 result }
{
    answered(number::INV, x, x.inv())
}

// By operation number, which may be any: what the call of that name answers, and refusal 6 where
// there is none.
pub fn call(op: u32, a: u64) -> Double
    ensures { GuardsByNumber op a result }
{
    match op {
        number::TRUNC => trunc(F64(a)),
        number::FRACT => fract(F64(a)),
        number::SQRT => sqrt(F64(a)),
        number::INV => inv(F64(a)),
        _ => Err(Refusal::NoSuchOperation),
    }
}

fn root(x: F64) -> F64
    ensures { result.0 ≡ value_of op_sqrt x.0 }
{
    if x.is_zero() {
        return x;
    }
    x.sqrt()
}

// What an operation answers, whose kernel gives the word: its refusal or the word's number. A word
// that is answered is no NaN, so its bits are a float's as they are.
#[inline(always)]
fn answered(op: u32, x: F64, word: F64) -> Double
    requires { (is_known op ≡ true) × (word.0 ≡ value_of op x.0) }
    ensures { Guards op x.0 result }
{
    refusal::first(gate::of(op), op, x)?;
    Ok(f64::from_bits(word.0))
}
