// An operation over a strip: whole lists of words, place by place what the single call answers. The
// exported call of `dampmeadow` stands on it.
#![tactic(auto)]

ghost use Rattle.std.specs.Prelude.{◌≡◌};
ghost use Rattle.refusals.specs.Given.{refusal_given};
ghost use Rattle.frame.specs.Words.{kernel_number};
ghost use Rattle.strip.specs.Strip.{operands_in, used, word_at, refusal_at, Fills, Strips};
ghost use Rattle.strip.specs.Lists.{Kept};

use frame::words;
use guard::number::{
    ABS, ACOS, ASIN, ATAN, ATAN2, CEIL, COPYSIGN, COS, DIV_EUCLID, EXP, FLOOR, FRACT, HYPOT, INV,
    INVSQRT, LN, POWF, POWI, RECIP, REM_EUCLID, ROUND, SIGNUM, SIN, SQRT, TAN, TRUNC,
};
use lists::Lists;
use op::{
    RAW_ABS, RAW_ATAN, RAW_ATAN2, RAW_COS, RAW_HYPOT, RAW_INV, RAW_INVSQRT, RAW_SIN, RAW_SQRT,
};
use refusals::Refusal;

pub(crate) mod angle;
pub(crate) mod atan;
pub(crate) mod blocks;
pub(crate) mod choice;
pub(crate) mod cosine;
pub(crate) mod hypot;
pub(crate) mod lists;
pub(crate) mod op;
pub(crate) mod quick;

// Runs an operation, guarded or raw, over two lists of words and fills a list with the answers and
// one with the refusals: 0 where the place is answered, and with a refusal the word is 0. What the
// second list holds does not matter to an operation of one operand; powi's powers stand there in
// two's complement. A strip is refused where the four lists have not all one length, or else where
// there is no such operation; nothing is written then.
pub fn run(
    op: u32,
    first: &[u32],
    second: &[u32],
    answers: &mut [u32],
    refusals: &mut [u32],
) -> Result<(), Refusal>
    ensures { Strips op first.now second.now answers.old refusals.old (refusal_given result) answers.new refusals.new }
{
    let count = first.len();
    if second.len() != count || answers.len() != count || refusals.len() != count {
        return Err(Refusal::Lengths);
    }
    if raw::operands(words::kernel_number(op)) == 0 {
        return Err(Refusal::NoSuchOperation);
    }
    fill_all(
        op,
        &mut Lists {
            first,
            second,
            answers,
            refusals,
        },
    );
    Ok(())
}

// Fills every place. The operation is found here, once: with its number written out, a loop is compiled
// for it alone, and a `match` on it costs nothing. Those that have blocks have theirs there, and of three
// of these the raw form has no test to be spared.
fn fill_all(op: u32, s: &mut Lists)
    ensures filled { Fills op s.old.first.now s.old.second.now s.new.answers.now s.new.refusals.now }
    ensures same { Kept s.old s.new }
{
    match op {
        ABS => blocks::fill::<ABS>(s),
        RAW_ABS => fill(RAW_ABS, s),
        SQRT => blocks::fill::<SQRT>(s),
        RAW_SQRT => blocks::fill::<RAW_SQRT>(s),
        INVSQRT => blocks::fill::<INVSQRT>(s),
        RAW_INVSQRT => fill(RAW_INVSQRT, s),
        INV => blocks::fill::<INV>(s),
        RAW_INV => fill(RAW_INV, s),
        ATAN => blocks::fill::<ATAN>(s),
        RAW_ATAN => blocks::fill::<RAW_ATAN>(s),
        ATAN2 => blocks::fill::<ATAN2>(s),
        RAW_ATAN2 => blocks::fill::<RAW_ATAN2>(s),
        COS => blocks::fill::<COS>(s),
        RAW_COS => blocks::fill::<RAW_COS>(s),
        SIN => blocks::fill::<SIN>(s),
        RAW_SIN => blocks::fill::<RAW_SIN>(s),
        HYPOT => blocks::fill::<HYPOT>(s),
        RAW_HYPOT => blocks::fill::<RAW_HYPOT>(s),
        _ => fill_by_kernel(op, s),
    }
}

// The same for the others, by the kernel. The last arm is for a number that has none, which `run` does not
// let through, and for those above.
fn fill_by_kernel(op: u32, s: &mut Lists)
    ensures filled { Fills op s.old.first.now s.old.second.now s.new.answers.now s.new.refusals.now }
    ensures same { Kept s.old s.new }
{
    match words::kernel_number(op) {
        TRUNC => fill_kernel::<TRUNC>(op, s),
        FRACT => fill_kernel::<FRACT>(op, s),
        FLOOR => fill_kernel::<FLOOR>(op, s),
        CEIL => fill_kernel::<CEIL>(op, s),
        ROUND => fill_kernel::<ROUND>(op, s),
        COPYSIGN => fill_kernel::<COPYSIGN>(op, s),
        SIGNUM => fill_kernel::<SIGNUM>(op, s),
        RECIP => fill_kernel::<RECIP>(op, s),
        EXP => fill_kernel::<EXP>(op, s),
        LN => fill_kernel::<LN>(op, s),
        POWI => fill_kernel::<POWI>(op, s),
        POWF => fill_kernel::<POWF>(op, s),
        ASIN => fill_kernel::<ASIN>(op, s),
        ACOS => fill_kernel::<ACOS>(op, s),
        TAN => fill_kernel::<TAN>(op, s),
        REM_EUCLID => fill_kernel::<REM_EUCLID>(op, s),
        DIV_EUCLID => fill_kernel::<DIV_EUCLID>(op, s),
        _ => fill(op, s),
    }
}

// The same for a kernel, raw or guarded.
fn fill_kernel<const NUMBER: u32>(op: u32, s: &mut Lists)
    requires { kernel_number op ≡ NUMBER }
    ensures filled { Fills op s.old.first.now s.old.second.now s.new.answers.now s.new.refusals.now }
    ensures same { Kept s.old s.new }
{
    if op >= words::RAW {
        fill(words::RAW + NUMBER, s);
    } else {
        fill(NUMBER, s);
    }
}

// The same by the single call, place after place. The operation is no const parameter: a raw one's number
// would be a sum, which a const argument may not be.
fn fill(op: u32, s: &mut Lists)
    ensures filled { Fills op s.old.first.now s.old.second.now s.new.answers.now s.new.refusals.now }
    ensures same { Kept s.old s.new }
{
    let operands = raw::operands(words::kernel_number(op));
    s.fill_by(|a, b| place(op, operands, a, b));
}

// What the single call answers at a place, the word and the refusal.
fn place(op: u32, operands: u32, a: u32, b: u32) -> (u32, u32)
    requires { operands ≡ operands_in op }
    ensures { (result.0 ≡ word_at op a b) × (result.1 ≡ refusal_at op a b) }
{
    // not by the packed call, so that with a number written out the kernel is in the loop
    let words = words::packed(words::answer(op, a, used(operands, b)));
    ((words % 0x1_0000_0000) as u32, (words >> 32) as u32)
}

// The second word, where an operation of so many operands is handed it.
fn used(operands: u32, b: u32) -> u32
    ensures { result ≡ used operands b }
{
    if operands == 2 {
        return b;
    }
    0
}
