// The exported calls, for C and Rust. The static library is built from it; no crate stands on it. Those
// of the engine without floats are in engine.rt, and those of the studio edition in studio.rt.
#![tactic(auto)]

ghost use Rattle.std.specs.Prelude.{◌≡◌};
ghost use Rattle.std.specs.Float.{binary32};
ghost use Rattle.std.specs.Float.Ieee.{of_bits};
ghost use Rattle.std.specs.Int.{w32};
ghost use Rattle.std.proofs.Common.{of_z};
ghost use Rattle.format.specs.Parts.{trunc_word, fract_word};
ghost use Rattle.format.specs.Sign.{turned_word};
ghost use Rattle.format.specs.Whole.{floor_word, ceil_word};
ghost use Rattle.float.specs.Engine.{ieee};
ghost use Rattle.float.specs.Atan.{atan_norm_word};
ghost use Rattle.float.specs.Marks.{mark_of, number_of};
ghost use Rattle.guard.specs.Operations.{op_atan, op_powi, op_trunc};
ghost use Rattle.guard.specs.Refusals.{refusal_of};
ghost use Rattle.guard.specs.Guarded.{products_given};
ghost use Rattle.frame.specs.Words.{packed, answer_words, word_beside, words_of};
ghost use Rattle.frame.specs.Frame.{returned, left};
ghost use Rattle.recipe.specs.Answers.{AnswersWords};
ghost use Rattle.strip.specs.Strip.{Strips};
ghost use Rattle.grain.specs.Grain.{Leaves};

use float::F32;
use float::mark::Marked;
use frame::words;
use grain::Grain;

pub mod engine;
pub mod studio;

// What a frame with this operation and these two words answers: the refusal number in the high 32
// bits and the word in the low 32.
#[unsafe(no_mangle)]
pub extern "C" fn dampmeadow_words(op: u32, a: u32, b: u32) -> u64
    ensures { result ≡ words_of op a b }
{
    words::packed_answer(op, a, b)
}

// What a recipe, a line given without its newline, answers at x: the refusal number in the high 32
// bits, 13 for a line that is too long, 14 for one too deep, 15 for one that is not of the grammar,
// or a kernel's; and the word in the low 32, which may be a NaN's, 7fc00000.
#[unsafe(no_mangle)]
pub extern "C" fn dampmeadow_recipe(line: &[u8], x: u32) -> u64
    ensures { AnswersWords line.now (of_bits binary32 x) result }
{
    words::of_answer(recipe::answer(line, F32(x)))
}

// Runs an operation over a strip: place by place what it answers to the words of the first list and
// the second goes into the answers and the refusals. Returns 0, or 10 where the four lists have not
// all one length, or else 6 where there is no such operation; nothing is written then.
#[unsafe(no_mangle)]
pub extern "C" fn dampmeadow_strip(
    op: u32,
    first: &[u32],
    second: &[u32],
    answers: &mut [u32],
    refusals: &mut [u32],
) -> u32
    ensures { Strips op first.now second.now answers.old refusals.old result answers.new refusals.new }
{
    refusals::number(strip::run(op, first, second, answers, refusals))
}

// Answers a line, given without its newline: eleven bytes at the front of the space, the refusal in
// two digits, the value in eight and a newline; the bytes after them stay. Returns the refusal, and 8
// for a space of fewer than eleven bytes, to which nothing is written.
#[unsafe(no_mangle)]
pub extern "C" fn dampmeadow_answer(line: &[u8], space: &mut [u8]) -> u32
    ensures number { result ≡ returned line.now space.old }
    ensures bytes { space.new ≡ left line.now space.old }
{
    frame::answer_number(line, space)
}

// atan_norm, which has no operation number: the arctangent as a share of a quarter turn.
#[unsafe(no_mangle)]
pub extern "C" fn dampmeadow_atan_norm(a: u32) -> u32
    ensures { result ≡ atan_norm_word ieee a }
{
    F32(a).atan_norm().0
}

// The same behind atan's gate: the refusal in the high 32 bits and the word in the low 32.
#[unsafe(no_mangle)]
pub extern "C" fn dampmeadow_atan_norm_guarded(a: u32) -> u64
    ensures { result ≡ answer_words (refusal_of op_atan a 0) (atan_norm_word ieee a) }
{
    words::of_answer(guard::atan_norm(F32(a)))
}

// trunc and fract together, behind the gate that they share: sets the whole part and the rest, and
// returns the refusal, 0 where there is none. With a refusal both are 0.
#[unsafe(no_mangle)]
pub extern "C" fn dampmeadow_parts(a: u32, whole: &mut u32, rest: &mut u32) -> u32
    ensures number { result ≡ refusal_of op_trunc a 0 }
    ensures whole { whole.new ≡ word_beside (refusal_of op_trunc a 0) (trunc_word binary32 a) }
    ensures rest { rest.new ≡ word_beside (refusal_of op_trunc a 0) (fract_word binary32 a) }
{
    let answer = guard::parts(F32(a));
    let words = guard::part_words(answer);
    *whole = words.0;
    *rest = words.1;
    refusals::number(answer)
}

// How many products guarded powi forms for its answer to a word and a power: 0 where the call is
// refused, for the power 0 and where it gives up early, and 39 at most.
#[unsafe(no_mangle)]
pub extern "C" fn dampmeadow_powi_products(a: u32, n: i32) -> u32
    ensures { result ≡ products_given op_powi a (of_z w32 n) }
{
    guard::products(guard::powi(F32(a), n))
}

// Raw floor, with the mark of the cast to an integer that it makes: the mark's number in the high 32
// bits and the word in the low 32.
#[unsafe(no_mangle)]
pub extern "C" fn dampmeadow_floor_marked(a: u32) -> u64
    ensures { result ≡ packed (number_of (mark_of a)) (floor_word binary32 a) }
{
    with_mark(F32(a).floor_marked())
}

// Raw ceil, in the same way. Its cast is of the number with its sign turned.
#[unsafe(no_mangle)]
pub extern "C" fn dampmeadow_ceil_marked(a: u32) -> u64
    ensures { result ≡ packed (number_of (mark_of (turned_word binary32 a))) (ceil_word binary32 a) }
{
    with_mark(F32(a).ceil_marked())
}

fn with_mark(marked: Marked<F32>) -> u64
    ensures { result ≡ packed (number_of marked.mark) marked.value.0 }
{
    u32::from(marked.mark) as u64 * 0x1_0000_0000 + marked.value.0 as u64
}

// Offers a sample to a record of grain, which is changed in place: returns the refusal, 0 where the
// sample is taken.
#[unsafe(no_mangle)]
pub extern "C" fn dampmeadow_grain_offer(grain: &mut Grain, sample: u32) -> u32
    ensures { Leaves grain.old sample result grain.new }
{
    refusals::number(grain.offer(F32(sample)))
}
