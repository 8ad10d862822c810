// The run on the bench: frames from a reader, their answers to a writer, one a line in their order.
// It holds a buffer of 65,536 bytes for what is read, another for what is written, and the first 19
// bytes of the line begun, whatever the input is. The programs `frames` and `vectors` are this run
// over standard input and output, of which no contract can say what they bring and take.
#![tactic(auto)]

ghost use Rattle.std.specs.Prelude.{◌-◌, ◌^◌, ◌≡◌, None, IfOk, IfSome};
ghost use Rattle.std.specs.Io.KnownBytes.{Appends};
ghost use Rattle.frame.specs.Frame.{answer_bytes};
ghost use Rattle.lines.specs.Lines.{answers_of};
ghost use Rattle.pipe.specs.Turns.{Runs};
ghost use Rattle.pipe.specs.Known.{AppendsFront};

use lines::{Frames, KEPT, Lines};
use pipe::{BUFFER, Fault};
use std::io::{Read, Write};

// Reads until the input ends, and answers as the lines end. A read or a write that fails ends the run.
// A proved loop has to end, so turns are counted, up to a number that no run reaches.
pub fn run<R: Read, W: Write>(input: &mut R, output: &mut W) -> Result<Option<Lines>, Fault>
    ensures turns { IfOk result (Runs (2 ^ 64 - 1)) }

    // Where the bytes are known. Until the input ends, or where it fails, the first ones are written.
    ensures all { IfOk result (λ r. r ≡ None → IfSome (R.remaining input.old)
        (λ bytes. Appends (W.contents output.old) (W.contents output.new) (answers_of answer_bytes bytes))) }
    ensures first { IfSome (R.remaining input.old)
        (λ bytes. AppendsFront (W.contents output.old) (W.contents output.new) (answers_of answer_bytes bytes)) }
{
    pipe::run::<Frames, KEPT, BUFFER, R, W>(u64::MAX, input, output)
}
