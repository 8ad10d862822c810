// The light gate: each kernel guarded, so that a call gives a number or one numbered refusal and
// never both, exactly when the list of refusals says so. `frame` answers its guarded frames by it.
#![tactic(auto)]

ghost use Rattle.std.specs.Prelude.{◌≡◌, false};
ghost use Rattle.std.specs.Float.{binary32};
ghost use Rattle.std.specs.Float.Ieee.{nan_bits};
ghost use Rattle.std.specs.Int.{w32};
ghost use Rattle.std.proofs.Common.{of_z};
ghost use Rattle.format.specs.Meaning.{IsTrunc, IsFract, IsFloor, IsCeil, IsRound};
ghost use Rattle.format.specs.Estimates.{SqrtBound, InvBound, InvsqrtBound, InvsqrtTight};
ghost use Rattle.float.specs.Engine.{ieee};
ghost use Rattle.float.specs.Atan.{atan_norm_word};
ghost use Rattle.float.specs.RemEuclid.{LeftBy};
ghost use Rattle.guard.specs.Operations.{op_trunc, op_fract, op_floor, op_ceil, op_round, op_abs, op_copysign, op_signum, op_sqrt, op_invsqrt, op_inv, op_recip, op_exp, op_ln, op_powi, op_powf, op_atan, op_atan2, op_cos, op_sin, op_hypot, op_asin, op_acos, op_tan, op_rem_euclid, op_div_euclid};
ghost use Rattle.guard.specs.Refusals.{refusal_of};
ghost use Rattle.refusals.specs.Given.{Answered};
ghost use Rattle.guard.specs.Guarded.{value_after, word_of, products_in, whole_of, rest_of, value_of, Gives, Guards, TurnsSign, GuardsByNumber, GivesParts};

use float::{F32, cast};
use format::Number;
use refusals::Refusal;

pub mod gate;
pub mod number;
pub mod refusal;

// What a guarded call gives: a number, or why there is none.
pub type Answer = Result<Value, Refusal>;

// A number, and how many products powi formed for it. Of every other call those are 0.
#[derive(Clone, Copy)]
pub struct Value {
    pub number: f32,
    pub products: u32,
}

impl Value {
    // The number of a word. Of a NaN it has not the bits.
    fn of(word: F32) -> Value
        ensures { result ≡ value_after 0 word.0 }
    {
        Value {
            number: word.value(),
            products: 0,
        }
    }
}

// The two numbers that trunc and fract give together, and their count of products, as of a number.
#[derive(Clone, Copy)]
pub struct WholeAndRest {
    pub whole: f32,
    pub rest: f32,
    pub products: u32,
}

// The answer's word. A refusal's is 0.
pub fn word(answer: Answer) -> u32
    ensures { result ≡ word_of answer }
{
    answer.map_or(0, |value| F32::of(value.number).0)
}

// How many products were formed for the answer. A refusal counts none.
pub fn products(answer: Answer) -> u32
    ensures { result ≡ products_in answer }
{
    answer.map_or(0, |value| value.products)
}

// The words of the two parts. Beside a refusal both are 0.
pub fn part_words(parts: Result<WholeAndRest, Refusal>) -> (u32, u32)
    ensures whole { result.0 ≡ whole_of parts }
    ensures rest { result.1 ≡ rest_of parts }
{
    parts.map_or(
        (0, 0),
        |parts| (F32::of(parts.whole).0, F32::of(parts.rest).0),
    )
}

// The whole part, with the operand's sign bit.
pub fn trunc(x: F32) -> Answer
    ensures gate { Guards op_trunc x.0 0 result }
    ensures ieee { Answered result → IsTrunc binary32 x.0 (word_of result) }
{
    answered(number::TRUNC, x, 0, x.trunc())
}

// The fraction part, with the operand's sign bit.
pub fn fract(x: F32) -> Answer
    ensures gate { Guards op_fract x.0 0 result }
    ensures ieee { Answered result → IsFract binary32 x.0 (word_of result) }
{
    answered(number::FRACT, x, 0, x.fract())
}

// The largest whole number not above the operand.
pub fn floor(x: F32) -> Answer
    ensures gate { Guards op_floor x.0 0 result }
    ensures ieee { Answered result → IsFloor binary32 x.0 (word_of result) }
{
    answered(number::FLOOR, x, 0, x.floor())
}

// The smallest whole number not below the operand.
pub fn ceil(x: F32) -> Answer
    ensures gate { Guards op_ceil x.0 0 result }
    ensures ieee { Answered result → IsCeil binary32 x.0 (word_of result) }
{
    answered(number::CEIL, x, 0, x.ceil())
}

// The nearest whole number, halves away from 0.
pub fn round(x: F32) -> Answer
    ensures gate { Guards op_round x.0 0 result }
    ensures ieee { Answered result → IsRound binary32 x.0 (word_of result) }
{
    answered(number::ROUND, x, 0, x.round())
}

pub fn abs(x: F32) -> Answer
    ensures { Guards op_abs x.0 0 result }
{
    answered(number::ABS, x, 0, x.abs())
}

pub fn copysign(x: F32, sign: F32) -> Answer
    ensures { Guards op_copysign x.0 sign.0 result }
{
    answered(number::COPYSIGN, x, sign.0, x.copysign(sign))
}

pub fn signum(x: F32) -> Answer
    ensures { Guards op_signum x.0 0 result }
{
    answered(number::SIGNUM, x, 0, x.signum())
}

// A zero is its own square root.
pub fn sqrt(x: F32) -> Answer
    ensures gate { Guards op_sqrt x.0 0 result }
    ensures bound { Answered result → SqrtBound binary32 x.0 (word_of result) }
{
    if x.is_zero() {
        return Ok(Value::of(x));
    }
    answered(number::SQRT, x, 0, x.sqrt())
}

pub fn invsqrt(x: F32) -> Answer
    ensures gate { Guards op_invsqrt x.0 0 result }
    ensures bound { Answered result → InvsqrtBound x.0 (word_of result) }
    ensures tight { Answered result → InvsqrtTight x.0 (word_of result) }
{
    answered(number::INVSQRT, x, 0, x.invsqrt())
}

// About 1/x, of either sign: the sign turned turns the answer's, and changes no refusal.
pub fn inv(x: F32) -> Answer
    ensures gate { Guards op_inv x.0 0 result }
    ensures bound { Answered result → InvBound binary32 x.0 (word_of result) }
    ensures sign { TurnsSign op_inv x.0 result }
{
    refusal::first(gate::of(number::INV), number::INV, x, 0)?;
    // No NaN behind the gate, so its bits are a float's as they are.
    Ok(Value {
        number: f32::from_bits(x.inv().0),
        products: 0,
    })
}

pub fn recip(x: F32) -> Answer
    ensures { Guards op_recip x.0 0 result }
{
    answered(number::RECIP, x, 0, x.recip())
}

pub fn exp(x: F32) -> Answer
    ensures { Guards op_exp x.0 0 result }
{
    answered(number::EXP, x, 0, x.exp())
}

pub fn ln(x: F32) -> Answer
    ensures { Guards op_ln x.0 0 result }
{
    answered(number::LN, x, 0, x.ln())
}

// With the products that it took: none for the power 0 or where it gives up early, else one at least
// and 39 at most. The calls by number are quicker where it is not compiled into them.
#[inline(never)]
pub fn powi(x: F32, n: i32) -> Answer
    ensures { Guards op_powi x.0 (of_z w32 n) result }
{
    refusal::first(
        gate::of(number::POWI),
        number::POWI,
        x,
        cast::bits_of_i32(n),
    )?;
    let power = x.powi_counted(n);
    Ok(Value {
        number: power.number.value(),
        products: power.products,
    })
}

pub fn powf(x: F32, n: F32) -> Answer
    ensures { Guards op_powf x.0 n.0 result }
{
    answered(number::POWF, x, n.0, x.powf(n))
}

pub fn atan(x: F32) -> Answer
    ensures { Guards op_atan x.0 0 result }
{
    answered(number::ATAN, x, 0, x.atan())
}

// y comes first.
pub fn atan2(y: F32, x: F32) -> Answer
    ensures { Guards op_atan2 y.0 x.0 result }
{
    answered(number::ATAN2, y, x.0, y.atan2(x))
}

pub fn cos(x: F32) -> Answer
    ensures { Guards op_cos x.0 0 result }
{
    answered(number::COS, x, 0, x.cos())
}

pub fn sin(x: F32) -> Answer
    ensures { Guards op_sin x.0 0 result }
{
    answered(number::SIN, x, 0, x.sin())
}

pub fn hypot(x: F32, y: F32) -> Answer
    ensures { Guards op_hypot x.0 y.0 result }
{
    answered(number::HYPOT, x, y.0, x.hypot(y))
}

pub fn asin(x: F32) -> Answer
    ensures { Guards op_asin x.0 0 result }
{
    answered(number::ASIN, x, 0, x.asin())
}

// A zero's is PI/2.
pub fn acos(x: F32) -> Answer
    ensures { Guards op_acos x.0 0 result }
{
    answered(number::ACOS, x, 0, x.acos())
}

// Refused where the cosine is a zero too.
pub fn tan(x: F32) -> Answer
    ensures { Guards op_tan x.0 0 result }
{
    answered(number::TAN, x, 0, x.tan())
}

// What whole y leave of x, from 0 to the size of y.
pub fn rem_euclid(x: F32, y: F32) -> Answer
    ensures gate { Guards op_rem_euclid x.0 y.0 result }
    ensures range { Answered result → LeftBy y.0 (word_of result) }
{
    answered(number::REM_EUCLID, x, y.0, x.rem_euclid(y))
}

// How many whole y those are.
pub fn div_euclid(x: F32, y: F32) -> Answer
    ensures { Guards op_div_euclid x.0 y.0 result }
{
    answered(number::DIV_EUCLID, x, y.0, x.div_euclid(y))
}

// As a share of a quarter turn. It has no number of its own, and atan's gate.
pub fn atan_norm(slope: F32) -> Answer
    ensures { Gives (refusal_of op_atan slope.0 0) (atan_norm_word ieee slope.0) result }
{
    refusal::first(gate::of(number::ATAN), number::ATAN, slope, 0)?;
    Ok(Value::of(slope.atan_norm()))
}

// trunc and fract together.
pub fn parts(operand: F32) -> Result<WholeAndRest, Refusal>
    ensures gate { GivesParts operand.0 result }
    ensures whole { Answered result → IsTrunc binary32 operand.0 (whole_of result) }
    ensures rest { Answered result → IsFract binary32 operand.0 (rest_of result) }
{
    refusal::first(gate::of(number::TRUNC), number::TRUNC, operand, 0)?;
    Ok(WholeAndRest {
        whole: operand.trunc().value(),
        rest: operand.fract().value(),
        products: 0, // of two parts
    })
}

// By operation number: what the call of that name answers, and refusal 6 where there is none. An
// operation of one operand does not look at the second word; powi's power is that word in two's
// complement. Any number may come, and each arm has a kernel of its own shape.
#[inline(always)]
pub fn call(op: u32, a: u32, b: u32) -> Answer
    ensures { GuardsByNumber op a b result }
{
    match op {
        number::TRUNC => trunc(F32(a)),
        number::FRACT => fract(F32(a)),
        number::FLOOR => floor(F32(a)),
        number::CEIL => ceil(F32(a)),
        number::ROUND => round(F32(a)),
        number::ABS => abs(F32(a)),
        number::COPYSIGN => copysign(F32(a), F32(b)),
        number::SIGNUM => signum(F32(a)),
        number::SQRT => sqrt(F32(a)),
        number::INVSQRT => invsqrt(F32(a)),
        number::INV => inv(F32(a)),
        number::RECIP => recip(F32(a)),
        number::EXP => exp(F32(a)),
        number::LN => ln(F32(a)),
        number::POWI => powi(F32(a), cast::i32_of_bits(b)),
        number::POWF => powf(F32(a), F32(b)),
        number::ATAN => atan(F32(a)),
        number::ATAN2 => atan2(F32(a), F32(b)),
        number::COS => cos(F32(a)),
        number::SIN => sin(F32(a)),
        number::HYPOT => hypot(F32(a), F32(b)),
        number::ASIN => asin(F32(a)),
        number::ACOS => acos(F32(a)),
        number::TAN => tan(F32(a)),
        number::REM_EUCLID => rem_euclid(F32(a), F32(b)),
        number::DIV_EUCLID => div_euclid(F32(a), F32(b)),
        _ => Err(Refusal::NoSuchOperation),
    }
}

// What an operation answers, whose kernel gives the word: its refusal or the word's number. It is
// called with an operation's name, so that its tests and its gate's row are folded in.
#[inline(always)]
fn answered(op: u32, a: F32, b: u32, word: F32) -> Answer
    requires { word.0 ≡ value_of op a.0 b }
    ensures { Gives (refusal_of op a.0 b) (value_of op a.0 b) result }
{
    refusal::first(gate::of(op), op, a, b)?;
    Ok(Value::of(word))
}
