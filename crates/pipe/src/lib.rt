// The run of a program: lines from a reader, their answers to a writer, one a line in their order; and
// why a run ended before its input did. The programs of `bench` and `recipes` are it.
#![tactic(auto)]

ghost use Rattle.std.specs.Prelude.{◌≡◌, ◌≤◌, ◌<◌, length, None, Ok, Err, IfOk, IfErr, IfSome, OnOk, OnErr};
ghost use Rattle.std.specs.Io.KnownBytes.{Appends};
ghost use Rattle.lines.specs.Lines.{answers_of};
ghost use Rattle.lines.specs.Held.{after, answers_from, front, last_answer};
ghost use Rattle.pipe.specs.Known.{AppendsFront};
ghost use Rattle.pipe.specs.Chunk.{Room, Steps, a_buffer};
ghost use Rattle.pipe.specs.Turns.{Takes, Turns, Runs};
ghost use Rattle.pipe.specs.Written.{Answered, due, due_for};

use lines::{Answers, Frames, Held, KEPT, Part};
use std::io::{ErrorKind, Read, Write};
use std::{fmt, io};

// Why a run ended before its input did.
#[derive(Clone, Copy)]
pub enum Fault {
    Input(io::Error),
    Output(io::Error),
}

// In words, as `main` prints what it ends with.
impl fmt::Debug for Fault {
    fn fmt<W: fmt::Write>(&self, f: &mut fmt::Formatter<W>) -> fmt::Result {
        match self {
            Fault::Input(e) => write!(f, "standard input: {e}"),
            Fault::Output(e) => write!(f, "standard output: {e}"),
        }
    }
}

// Answers of which up to ROOM bytes are written at a time, one answer at least.
pub trait Writes<const N: usize, const ROOM: usize>: Answers<N> {
    ghost room: { Room ROOM };
}

// The bytes of a buffer.
pub const BUFFER: usize = 65536;

// Frames are answered a buffer at a time.
impl Writes<KEPT, BUFFER> for Frames {
    ghost room = { a_buffer };
}

// Reads until the input ends, and answers as the lines end. A read or a write that fails ends the run.
// It takes so many turns, or fewer where the input ends before: then no line is begun any more.
pub fn run<A, const N: usize, const ROOM: usize, R: Read, W: Write>(
    most: u64,
    input: &mut R,
    output: &mut W,
) -> Result<Option<Held<N>>, Fault>
where
    A: Writes<N, ROOM>,
    ensures turns { IfOk result (Runs most) }

    // Where the bytes are known. Until the input ends, or where it fails, the first ones are written.
    ensures all { IfOk result (λ r. r ≡ None → IfSome (R.remaining input.old)
        (λ bytes. Appends (W.contents output.old) (W.contents output.new) (answers_of A.bytes bytes))) }
    ensures first { IfSome (R.remaining input.old)
        (λ bytes. AppendsFront (W.contents output.old) (W.contents output.new) (answers_of A.bytes bytes)) }
{
    let mut chunk = [0u8; BUFFER];
    let mut out = [0u8; ROOM];
    let mut begun = Held::new();
    'turns: for _turn in 0..most {
        match turn::<A, N, R, W>(begun, input, output, &mut chunk, &mut out)? {
            Some(next) => begun = next,
            None => return Ok(None),
        }
    }
    Ok(Some(begun))
}

// One read, and what is done with it. What is lent for answers is a slice, as a read and a write have
// it; that it has room is the law of `Writes`.
fn turn<A: Answers<N>, const N: usize, R: Read, W: Write>(
    lines: Held<N>,
    input: &mut R,
    output: &mut W,
    chunk: &mut [u8],
    out: &mut [u8],
) -> Result<Option<Held<N>>, Fault>
    requires { 11 ≤ length out.old }
    ensures turns { IfOk result (Turns lines.entry chunk.new) }
    ensures more { IfOk result (λ r. IfSome r
        (Answered A.bytes lines.entry (R.remaining input.old) (R.remaining input.new) (W.contents output.old) (W.contents output.new))) }
    ensures all { IfOk result (λ r. r ≡ None → 0 < length chunk.old → IfSome (R.remaining input.old)
        (λ bytes. Appends (W.contents output.old) (W.contents output.new) (due A.bytes lines.entry bytes))) }
    ensures first { OnErr result (0 < length chunk.old → IfSome (R.remaining input.old)
        (λ bytes. AppendsFront (W.contents output.old) (W.contents output.new) (due A.bytes lines.entry bytes))) }
{
    let got = input.read(chunk);
    taken::<A, N, W>(lines, got, output, chunk, out)
}

// What a read answered, with the bytes that it brought at the front of the chunk: the answers to the
// lines that end in them, and at the end of the input that to the last.
fn taken<A: Answers<N>, const N: usize, W: Write>(
    lines: Held<N>,
    got: io::Result<usize>,
    output: &mut W,
    chunk: &[u8],
    out: &mut [u8],
) -> Result<Option<Held<N>>, Fault>
    requires { 11 ≤ length out.old }
    ensures takes { IfOk result (Takes lines.entry got chunk.now) }
    ensures ended { IfOk result (λ r. r ≡ None → got ≡ Ok 0) }
    ensures failed { IfErr got (λ e. result ≡ Err (Fault.Input e)) }
    ensures written { OnOk result (Appends (W.contents output.old) (W.contents output.new) (due_for A.bytes lines.entry got chunk.now)) }
    ensures first { OnErr result (AppendsFront (W.contents output.old) (W.contents output.new) (due_for A.bytes lines.entry got chunk.now)) }
{
    match got {
        Err(e) => Err(Fault::Input(e)),
        Ok(0) => {
            end::<A, N, W>(&lines, output)?;
            Ok(None)
        }
        Ok(read) => {
            let n = read.min(chunk.len());
            let begun = answered::<A, N, W>(lines, output, &chunk[..n], out)?;
            Ok(Some(begun))
        }
    }
}

// Answers some bytes, as many of them at a time as there is room for their answers.
fn answered<A: Answers<N>, const N: usize, W: Write>(
    lines: Held<N>,
    output: &mut W,
    bytes: &[u8],
    out: &mut [u8],
) -> Result<Held<N>, Fault>
    requires { 11 ≤ length out.old }
    ensures answers { IfOk result (λ r. r ≡ after lines.entry bytes.now) }
    ensures written { OnOk result (Appends (W.contents output.old) (W.contents output.new) (answers_from A.bytes lines.entry bytes.now)) }
    ensures first { OnErr result (AppendsFront (W.contents output.old) (W.contents output.new) (answers_from A.bytes lines.entry bytes.now)) }
{
    let mut begun = lines;
    let mut rest = bytes;
    // by as much as a step has read
    while !rest.is_empty() {
        let read = step::<A, N, W>(&mut begun, output, rest, out)?;
        rest = &rest[read..];
    }
    Ok(begun)
}

// Answers what it can of some bytes, from the first on. Returns how many it read.
fn step<A: Answers<N>, const N: usize, W: Write>(
    begun: &mut Held<N>,
    output: &mut W,
    bytes: &[u8],
    out: &mut [u8],
) -> Result<usize, Fault>
    ensures steps { IfOk result (λ read. Steps (length out.old) begun.old bytes.now read begun.new) }
    ensures written { OnOk result (Appends (W.contents output.old) (W.contents output.new)
        (answers_from A.bytes begun.old (front (length out.old) bytes.now))) }
    ensures first { OnErr result (AppendsFront (W.contents output.old) (W.contents output.new)
        (answers_from A.bytes begun.old (front (length out.old) bytes.now))) }
{
    let lines = *begun;
    let Part { read, written } = begun.feed_to::<A>(bytes, out);
    write_answers::<A, N, W>(&lines, output, &bytes[..read], &out[..written])?;
    Ok(read)
}

// Answers the line that the input ends with.
fn end<A: Answers<N>, const N: usize, W: Write>(
    lines: &Held<N>,
    output: &mut W,
) -> Result<(), Fault>
    ensures written { OnOk result (Appends (W.contents output.old) (W.contents output.new) (last_answer A.bytes lines.now)) }
    ensures first { OnErr result (AppendsFront (W.contents output.old) (W.contents output.new) (last_answer A.bytes lines.now)) }
{
    let mut last = [0u8; 11];
    let n = lines.finish_to::<A>(&mut last);
    write_last::<A, N, W>(lines, output, &last[..n])
}

// Writes the answers to the lines that end in some bytes.
fn write_answers<A: Answers<N>, const N: usize, W: Write>(
    lines: &Held<N>,
    output: &mut W,
    bytes: &[u8],
    answers: &[u8],
) -> Result<(), Fault>
    requires { answers.now ≡ answers_from A.bytes lines.now bytes.now }
    ensures written { OnOk result (Appends (W.contents output.old) (W.contents output.new) (answers_from A.bytes lines.now bytes.now)) }
    ensures first { OnErr result (AppendsFront (W.contents output.old) (W.contents output.new) (answers_from A.bytes lines.now bytes.now)) }
{
    write(output, answers)
}

// Writes the answer to the line that the input ends with.
fn write_last<A: Answers<N>, const N: usize, W: Write>(
    lines: &Held<N>,
    output: &mut W,
    answer: &[u8],
) -> Result<(), Fault>
    requires { answer.now ≡ last_answer A.bytes lines.now }
    ensures written { OnOk result (Appends (W.contents output.old) (W.contents output.new) (last_answer A.bytes lines.now)) }
    ensures first { OnErr result (AppendsFront (W.contents output.old) (W.contents output.new) (last_answer A.bytes lines.now)) }
{
    write(output, answer)
}

// Writes some bytes, all of them or up to the first write that fails or takes none.
pub fn write<W: Write>(output: &mut W, bytes: &[u8]) -> Result<(), Fault>
    ensures written { OnOk result (Appends (W.contents output.old) (W.contents output.new) bytes.now) }
    ensures first { OnErr result (AppendsFront (W.contents output.old) (W.contents output.new) bytes.now) }
{
    let mut done = 0;
    // by as much as a write has taken
    while done < bytes.len() {
        match output.write(&bytes[done..]) {
            Ok(0) => return Err(Fault::Output(io::Error::from(ErrorKind::WriteZero))),
            Ok(n) => done += n,
            Err(e) => return Err(Fault::Output(e)),
        }
    }
    Ok(())
}
