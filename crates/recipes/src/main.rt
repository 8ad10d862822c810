// Answers recipes: each line of standard input is x as eight digits, a blank and a recipe, and its
// answer, to standard output, is eleven bytes as a frame's, one a line in their order. It holds a
// buffer of 65,536 bytes for what is read and the first 250 bytes of the line begun, whatever the
// input is. No contract says what standard input brings and what standard output takes; of known bytes
// `run` says that each line is answered, in order. docs/EXCEPTIONS.md has what shows the rest.
#![tactic(auto)]

ghost use Rattle.std.specs.Prelude.{◌≡◌, None, IfOk, IfSome};
ghost use Rattle.lines.specs.Lines.{lines_of};
ghost use Rattle.recipes.specs.Entries.{entry_bytes, entries, an_answer};
ghost use Rattle.recipes.specs.Written.{Adds, AddsFirst};

use lines::{Answers, Held};
use pipe::{Fault, Writes};
use recipe::entry;
use std::io::{Read, Write};

// Entries of a list. With x and the blank a recipe of 240 bytes makes 249, so one more says that it is
// too long, whatever follows.
struct Entries;

const KEPT: usize = 250;

impl Answers<KEPT> for Entries {
    ghost bytes = { entry_bytes };

    fn answer(line: &[u8], space: &mut [u8]) {
        frame::write(entry::answer(line), space);
    }

    ghost laws = { entries };
}

// The bytes of an answer: each is written by itself.
const ANSWER: usize = 11;

impl Writes<KEPT, ANSWER> for Entries {
    ghost room = { an_answer };
}

fn main(rt: HostRuntime) -> Result<(), Fault> {
    run(&mut rt.stdin(), &mut rt.stdout())?;
    Ok(())
}

// Reads until the input ends, and answers as the lines end. A read or a write that fails ends the run.
// A proved loop has to end, so turns are counted, up to a number that no run reaches.
fn run<R: Read, W: Write>(input: &mut R, output: &mut W) -> Result<Option<Held<KEPT>>, Fault>
    // Where the bytes are known. Until the input ends, or where it fails, the first ones are written.
    ensures all { IfOk result (λ r. r ≡ None → IfSome (R.remaining input.old)
        (λ bytes. Adds (lines_of bytes) (W.contents output.old) (W.contents output.new))) }
    ensures first { IfSome (R.remaining input.old)
        (λ bytes. AddsFirst (lines_of bytes) (W.contents output.old) (W.contents output.new)) }
{
    pipe::run::<Entries, KEPT, ANSWER, R, W>(u64::MAX, input, output)
}
