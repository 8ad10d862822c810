// An operation by its number, raw or guarded, on two words: the word that it gives, or why there is
// none; and the same packed, the refusal in the high 32 bits and the word in the low 32.
ghost use Rattle.std.specs.Prelude.{◌≡◌, ◌/◌, ◌%◌, ◌^◌};
ghost use Rattle.std.specs.Result.{result_unwrap_or};
ghost use Rattle.refusals.specs.Given.{refusal_given, given};
ghost use Rattle.guard.specs.Guarded.{word_of};
ghost use Rattle.frame.specs.Words.{packed, kernel_number, shape_of, words_of, Unpacks};

use float::F32;
use guard::{Answer, Value};
use refusals::Refusal;

// An operation that is not there is refused with 6, a second word that the operation does not use
// and that is not zero with 7, and a guarded operation with 1 to 5 or 9.
#[inline(always)]
pub fn answer(op: u32, a: u32, b: u32) -> Result<u32, Refusal>
    ensures { Unpacks (words_of op a b) result }
{
    shape_of(raw::operands(kernel_number(op)), b)?;
    if op >= RAW {
        return Ok(raw::answer(op - RAW, a, b));
    }
    // the number alone is taken: with the count beside it a caller waits for both
    match guard::call(op, a, b) {
        Ok(Value { number, .. }) => Ok(F32::of(number).0),
        Err(refusal) => Err(refusal),
    }
}

// The same, packed: a Result comes back through memory, and this in a register, which the calls for C,
// the lines and recipes count on. It alone has all kernels, so that they are compiled into it.
#[inline(never)]
pub fn packed_answer(op: u32, a: u32, b: u32) -> u64
    ensures { result ≡ words_of op a b }
{
    packed(answer(op, a, b))
}

// From here on an operation is a raw one.
pub const RAW: u32 = 0x80;

// A kernel's number is its operation's, without the 80 of a raw one.
pub fn kernel_number(op: u32) -> u32
    ensures { result ≡ kernel_number op }
{
    if op >= RAW {
        return op - RAW;
    }
    op
}

// By the number of words that an operation reads: one that reads none is no operation, and a second
// word that is not used is zero.
fn shape_of(operands: u32, b: u32) -> Result<(), Refusal>
    ensures { refusal_given result ≡ shape_of operands b }
{
    if operands == 0 {
        return Err(Refusal::NoSuchOperation);
    }
    if (operands == 1) & (b != 0) {
        return Err(Refusal::Malformed);
    }
    Ok(())
}

// A refusal is packed with the word 0.
#[inline(always)]
pub fn packed(answer: Result<u32, Refusal>) -> u64
    ensures { result ≡ packed (refusal_given answer) (result_unwrap_or answer 0) }
{
    match answer {
        Ok(word) => word as u64,
        Err(refusal) => refused(refusal.into()),
    }
}

// What is packed, taken apart again.
pub fn unpacked(words: u64) -> Result<u32, Refusal>
    ensures { result ≡ given (words / 2 ^ 32) (words % 2 ^ 32) }
{
    let refusal = (words >> 32) as u32;
    if refusal != 0 {
        return Err(refusals::numbered(refusal));
    }
    Ok((words % 0x1_0000_0000) as u32)
}

// A refusal by its number.
pub fn refused(refusal: u32) -> u64
    ensures { result ≡ packed refusal 0 }
{
    refusal as u64 * 0x1_0000_0000
}

pub fn of_answer(answer: Answer) -> u64
    ensures { result ≡ packed (refusal_given answer) (word_of answer) }
{
    packed(answer.map(|value| F32::of(value.number).0))
}
