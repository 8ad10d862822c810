// Replays a list of calls on doubles whose answers the comparison has made. A line of standard input
// is an operation in two digits, a blank and a word in sixteen; its answer, to standard output, is
// the refusal in two digits, a blank and the word in sixteen. No contract says what a read brings or
// what a write does; docs/EXCEPTIONS.md has what shows it.
#![tactic(auto)]

use double::words;
use std::io;
use std::io::{ErrorKind, Read, Write};

// Where the digits of the operation end, where those of the word stand, and the bytes of a line, its
// newline with them.
const OP_END: usize = 2;

const WORD: usize = 3;

const WORD_END: usize = 19;

const LINE: usize = 20;

fn main(rt: HostRuntime) -> io::Result<()> {
    run(&mut rt.stdin(), &mut rt.stdout())
}

// Answers line by line, as long as there are whole ones. A proved loop has to end, so lines are
// counted, up to a number that no list reaches.
fn run<R: Read, W: Write>(input: &mut R, output: &mut W) -> io::Result<()> {
    for _ in 0..u64::MAX {
        let Some(line) = next(input)? else {
            return Ok(());
        };
        let op = (number(&line[..OP_END]) % 0x100) as u32;
        tell(op, number(&line[WORD..WORD_END]), output)?;
    }
    Ok(())
}

// The next line, where there is a whole one.
fn next<R: Read>(input: &mut R) -> io::Result<Option<[u8; LINE]>> {
    let mut line = [0u8; LINE];
    match input.read_exact(&mut line) {
        Ok(()) => Ok(Some(line)),
        Err(e) if e.kind() == ErrorKind::UnexpectedEof => Ok(None),
        Err(e) => Err(e),
    }
}

// The number that some digits write; what is no digit counts as 0.
fn number(digits: &[u8]) -> u64 {
    digits
        .iter()
        .fold(0, |n, b| (n << 4) | digit(*b).unwrap_or(0) as u64)
}

// The value of a lower-case hexadecimal digit.
fn digit(b: u8) -> Option<u8> {
    if b <= b'9' {
        b.checked_sub(b'0')
    } else {
        b.checked_sub(b'a' - 10)
    }
}

// Writes the answer to a call.
fn tell<W: Write>(op: u32, a: u64, output: &mut W) -> io::Result<()> {
    let answer = words::answer(op, a);
    let refusal = refusals::number(answer);
    let word = answer.unwrap_or(0);
    writeln!(output, "{refusal:02x} {word:016x}")
}
