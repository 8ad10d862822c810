// The exported calls of the studio edition: the kernels on doubles, and the row on screen.
ghost use Rattle.std.specs.Prelude.{◌≡◌};
ghost use Rattle.double.specs.Words.{double_refusal, double_word};
ghost use Rattle.viewer.specs.View.{span_of};

use double::words;

// What an operation on doubles answers to a word: 01, 02, 09 and 0b are trunc, fract, sqrt and inv
// guarded, and 81, 82, 89 and 8b raw. Returns the refusal, 6 for any other number, and writes the
// word, 0 beside a refusal.
#[unsafe(no_mangle)]
pub extern "C" fn dampmeadow_double(op: u32, a: u64, value: &mut u64) -> u32
    ensures refusal { result ≡ double_refusal op a }
    ensures word { value.new ≡ double_word op a }
{
    let answer = words::answer(op, a);
    *value = answer.unwrap_or(0);
    refusals::number(answer)
}

// Which columns of which row are on screen, by the lengths of the scanned row and the retouched one:
// from the first up to the last, which is not among them. Returns whether they are the retouched
// row's. Where the columns asked for are out of order or past the end of the row chosen, they are
// the scanned row's, from 0 up to 0.
#[unsafe(no_mangle)]
pub extern "C" fn dampmeadow_columns(
    scan: usize,
    retouch: usize,
    retouched: bool,
    from: usize,
    to: usize,
    first: &mut usize,
    last: &mut usize,
) -> bool
    ensures row { result ≡ (span_of scan retouch retouched from to).retouched }
    ensures first { first.new ≡ (span_of scan retouch retouched from to).from }
    ensures last { last.new ≡ (span_of scan retouch retouched from to).to }
{
    let part = viewer::span(scan, retouch, retouched, from, to);
    *first = part.from;
    *last = part.to;
    part.retouched
}
