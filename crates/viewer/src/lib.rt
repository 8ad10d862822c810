// The row on screen: columns of the scanned row or of the retouched one, lent back without a copy.
#![tactic(auto)]

ghost use Rattle.std.specs.Prelude.{◌≡◌, length};
ghost use Rattle.viewer.specs.View.{span_of, viewed, place_in};

// Which row a part is of, by the flag that C has for it, and its columns: the first is in it and the
// last is not.
#[derive(Clone, Copy)]
pub struct Part {
    pub retouched: bool,
    pub from: usize,
    pub to: usize,
}

// The empty part of the scanned row.
const NOTHING: Part = Part {
    retouched: false,
    from: 0,
    to: 0,
};

// The part of one of two rows that have these lengths. Where its columns are out of order or past the
// end of the row chosen, it is the empty part of the scanned one.
pub fn span(scan: usize, retouch: usize, retouched: bool, from: usize, to: usize) -> Part
    ensures { result ≡ span_of scan retouch retouched from to }
{
    let length = if retouched { retouch } else { scan };
    if from <= to && to <= length {
        Part {
            retouched,
            from,
            to,
        }
    } else {
        NOTHING
    }
}

// Lends that part itself, in the row's own memory. The empty part of a refused call begins where the
// scanned row does. It is a range of the row by index, since `get` does not promise the place.
pub fn columns<'a>(
    scan: &'a [u32],
    retouch: &'a [u32],
    retouched: bool,
    from: usize,
    to: usize,
) -> &'a [u32]
    ensures part { result.now ≡ viewed scan.now retouch.now retouched from to }
    ensures place { result.ref_ptr ≡ place_in scan.entry retouch.entry (span_of (length scan.now) (length retouch.now) retouched from to) }
{
    let part = span(scan.len(), retouch.len(), retouched, from, to);
    let row = if part.retouched { retouch } else { scan };
    &row[part.from..part.to]
}
