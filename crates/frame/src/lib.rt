// A frame on the bench: a line of text and the eleven bytes that answer it. `lines` and the exported
// calls of `dampmeadow` stand on it.
#![tactic(auto)]

ghost use Rattle.std.specs.Prelude.{◌≡◌, true, ℕ, ◌+◌, ◌*◌, ◌-◌, ◌/◌, ◌%◌, ◌^◌, ◌≤◌, ◌<◌, length, get_or};
ghost use Rattle.refusals.specs.Given.{refusal_given};
ghost use Rattle.frame.specs.Words.{Unpacks};
ghost use Rattle.frame.specs.Frame.{is_digit, digit_of, digit_in, byte_of, all_digits, is_frame, number_after, line_words, words_bytes, returned_for, left_with, returned, left};

use refusals::Refusal;

pub mod words;

// Takes a line without its newline and writes its answer, eleven bytes, at the front of the space:
// the refusal in two digits, the value in eight, and a newline. The bytes after them stay. Gives the
// line's refusal; a space of fewer than eleven bytes is refused, and nothing is written.
pub fn answer(line: &[u8], space: &mut [u8]) -> Result<(), Refusal>
    ensures number { refusal_given result ≡ returned line.now space.old }
    ensures bytes { space.new ≡ left line.now space.old }
{
    let answer = of_line(line);
    put(words::packed(answer), space)?;
    answer.map(|_| ())
}

// The same, with the refusal by its number, for C and for runs of lines: the words come packed.
pub fn answer_number(line: &[u8], space: &mut [u8]) -> u32
    ensures number { result ≡ returned line.now space.old }
    ensures bytes { space.new ≡ left line.now space.old }
{
    write(packed_of_line(line), space)
}

// Writes an answer that is given as words at the front of the space, in the same way, and returns
// the refusal's number: 8 where there is no room.
pub fn write(words: u64, space: &mut [u8]) -> u32
    ensures number { result ≡ returned_for words space.old }
    ensures bytes { space.new ≡ left_with (words_bytes words) space.old }
{
    match put(words, space) {
        Ok(()) => (words >> 32) as u32,
        Err(refusal) => refusal.into(),
    }
}

// The eleven bytes of some words at the front of the space, if they have room. That is all that it refuses.
fn put(words: u64, space: &mut [u8]) -> Result<(), Refusal>
    ensures number { refusal_given result ≡ returned_for 0 space.old }
    ensures bytes { space.new ≡ left_with (words_bytes words) space.old }
{
    if space.len() < 11 {
        return Err(Refusal::NoRoom);
    }
    // by place: after `iter_mut` only the length of the space is known
    for i in 0..10 {
        space[i] = byte_of(nibble(words, i));
    }
    space[10] = b'\n';
    Ok(())
}

// A line's answer. One that is no frame is refused.
pub fn of_line(line: &[u8]) -> Result<u32, Refusal>
    ensures { Unpacks (line_words line.now) result }
{
    if !is_frame(line) {
        return Err(Refusal::Malformed);
    }
    words::answer(
        number(&line[0..2]),
        number(&line[2..10]),
        number(&line[10..18]),
    )
}

// The same, packed, as `words::packed_answer` has it.
fn packed_of_line(line: &[u8]) -> u64
    ensures { result ≡ line_words line.now }
{
    if !is_frame(line) {
        return words::packed(Err(Refusal::Malformed));
    }
    let a = number(&line[2..10]);
    words::packed_answer(number(&line[0..2]), a, number(&line[10..18]))
}

// Whether a line is eighteen lower-case hexadecimal digits.
fn is_frame(line: &[u8]) -> bool
    ensures { result ≡ is_frame line.now }
{
    line.len() == 18 && line.iter().all(|&b| is_digit(b))
}

// The number that at most eight digits write.
fn number(digits: &[u8]) -> u32
    requires { (length digits.now ≤ 8) × (all_digits digits.now ≡ true) }
    ensures { result ≡ number_after 0 digits.now }
{
    let mut n: u32 = 0;
    for &b in digits {
        n = n * 16 + digit_of(b) as u32;
    }
    n
}

fn is_digit(b: u8) -> bool
    ensures { result ≡ is_digit b }
{
    ((0x30 <= b) & (b <= 0x39)) | ((0x61 <= b) & (b <= 0x66))
}

// The value of a digit, and none of a byte that is no digit.
pub fn digit(b: u8) -> Option<u8>
    ensures { result ≡ digit_in b }
{
    if !is_digit(b) {
        return None;
    }
    Some(digit_of(b))
}

// The value of a digit.
fn digit_of(b: u8) -> u8
    requires { is_digit b ≡ true }
    ensures { result ≡ digit_of b }
{
    if b <= 0x39 {
        return b - 0x30;
    }
    b - 0x57
}

// The digit of a value.
fn byte_of(d: u8) -> u8
    requires { d < 16 }
    ensures { result ≡ byte_of d }
{
    if d <= 9 {
        return 0x30 + d;
    }
    0x57 + d
}

// The hexadecimal digit of a number at a place among its lowest ten, counted from the highest.
fn nibble(n: u64, i: usize) -> u8
    requires { i < 10 }
    ensures { result ≡ n / 16 ^ (9 - i) % 16 }
{
    ((n >> (4 * (9 - i))) % 16) as u8
}
