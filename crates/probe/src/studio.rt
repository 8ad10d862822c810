// Calls for the comparison alone, of the studio edition: the constants of doubles, and the part of a
// row that is lent, which no exported call can give.
ghost use Rattle.std.specs.Prelude.{◌≡◌, get_or};
ghost use Rattle.viewer.specs.View.{viewed};
ghost use Rattle.probe.specs.Constants.{double_constants};

use double::F64;
use format::Number;

// The constants of the number type, by their places in the definition's list, and 0 past its end.
#[unsafe(no_mangle)]
pub extern "C" fn probe_double_constant(place: u32) -> u64
    ensures { result ≡ get_or double_constants place 0 }
{
    let all = [
        F64::ZERO.0,
        F64::ONE.0,
        F64::EPSILON.0,
        F64::NAN.0,
        F64::INFINITY.0,
        F64::NEG_INFINITY.0,
        F64::SIGN_MASK,
        F64::EXPONENT_MASK,
        F64::MANTISSA_MASK,
        F64::EXPONENT_BIAS,
        F64::MANTISSA_BITS,
    ];
    all.get(place as usize).copied().unwrap_or(0)
}

// The word at a place of the part that is lent, and 0 past its end.
#[unsafe(no_mangle)]
pub extern "C" fn probe_columns<'a>(
    scan: &'a [u32],
    retouch: &'a [u32],
    retouched: bool,
    from: usize,
    to: usize,
    place: usize,
) -> u32
    ensures { result ≡ get_or (viewed scan.now retouch.now retouched from to) place 0 }
{
    let part = viewer::columns(scan, retouch, retouched, from, to);
    part.get(place).copied().unwrap_or(0)
}
