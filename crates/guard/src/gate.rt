// The gates: which words an operation takes. Every gate's bounds stand in this table and nowhere else.
ghost use Rattle.std.specs.Prelude.{◌≡◌};
ghost use Rattle.std.specs.Float.{binary32};
ghost use Rattle.format.specs.Fields.{magnitude};
ghost use Rattle.float.specs.DivEuclid.{quotient_word};
ghost use Rattle.guard.specs.Gates.{gate_of, place, passes, larger, unless_zero, judged};

use crate::number;
use float::{F32, cos};
use format::Number;

// The lowest and the highest word that pass, both allowed, and a word that is judged the other way:
// between them it does not pass, and elsewhere it does. Words are ordered as the numbers that they
// are, -0 just below +0.
#[derive(Clone, Copy)]
pub struct Gate(pub u32, pub u32, pub u32);

// A NaN, which refusal 1 has turned away before: no word is judged the other way.
const NONE: u32 = 0xffff_ffff;

// Every magnitude passes.
const OPEN: Gate = Gate(0x0000_0000, 0x7fff_ffff, NONE);

// By operation number, from 00, which is no operation. An end that is "under" a bound is the word
// below it.
const GATES: [Gate; 27] = [
    OPEN, // no operation
    Gate(0x0000_0000, 0x4f7f_ffff, NONE), // trunc: |x| under 2^32
    Gate(0x0000_0000, 0x4f7f_ffff, NONE), // fract: the same
    Gate(0x0000_0000, 0x4f00_0000, NONE), // floor: |x| to 2^31
    Gate(0x0000_0000, 0x4f00_0000, NONE), // ceil: the same
    Gate(0x0000_0000, 0x4aff_ffff, 0x3eff_ffff), // round: |x| under 2^23, and not 3effffff
    OPEN, // abs
    OPEN, // copysign
    OPEN, // signum
    OPEN, // sqrt
    OPEN, // invsqrt
    Gate(0x0000_0000, 0x7e80_0000, NONE), // inv: |x| to 2^126
    Gate(0x0000_0000, 0x7e00_0000, NONE), // recip: |x| to 2^125
    Gate(0xc2ae_0000, 0x42b0_0000, NONE), // exp: from -87 to 88
    OPEN, // ln
    OPEN, // powi
    Gate(0xc2ae_0000, 0x42b0_0000, NONE), // powf: the product from -87 to 88
    Gate(0x0000_0000, 0x5f7f_ffff, NONE), // atan: |x| under 2^64
    Gate(0x2180_0000, 0x5e80_0000, NONE), // atan2: from 2^-60 to 2^62
    Gate(0x0000_0000, 0x4380_0000, NONE), // cos: |x| to 256
    Gate(0x0000_0000, 0x4380_0000, NONE), // sin: the same
    Gate(0x2180_0000, 0x5e80_0000, NONE), // hypot: as atan2
    Gate(0x0000_0000, 0x3f7f_ffff, NONE), // asin: |x| under 1
    Gate(0x2180_0000, 0x3f7f_ffff, 0x0000_0000), // acos: |x| from 2^-60 and under 1, and 0
    Gate(0x0000_0000, 0x4380_0000, NONE), // tan: as cos
    Gate(0x0000_0000, 0x4aff_ffff, NONE), // rem_euclid: |x / y| under 2^23
    Gate(0x0000_0000, 0x4aff_ffff, NONE), // div_euclid: the same
];

// The row of an operation. The whole table is copied to read it, but where the number is a constant,
// and so it is compiled into its callers: keep it out of loops. Any number has one.
#[inline(always)]
pub fn of(op: u32) -> Gate
    ensures { result ≡ gate_of op }
{
    if op < 27 {
        return GATES[op as usize];
    }
    OPEN
}

// Where a word stands in the order.
fn place(w: u32) -> u32
    ensures { result ≡ place w }
{
    if w < F32::SIGN_MASK {
        return F32::SIGN_MASK + w;
    }
    0xffff_ffff - w
}

pub fn passes(gate: Gate, w: u32) -> bool
    ensures { result ≡ passes gate w }
{
    let at = place(w);
    ((place(gate.0) <= at) & (at <= place(gate.1))) != (w == gate.2)
}

fn larger(a: F32, b: F32) -> u32
    ensures { result ≡ larger a.0 b.0 }
{
    let x = a.abs().0;
    let y = b.abs().0;
    if x <= y {
        return y;
    }
    x
}

// The magnitude of a number, and past every end where another word is a zero.
fn unless_zero(other: u32, x: F32) -> u32
    ensures { result ≡ unless_zero other x.0 }
{
    if F32(other).is_zero() {
        return F32::INFINITY.0;
    }
    x.abs().0
}

fn quotient(x: F32, y: F32) -> u32
    ensures { result ≡ magnitude binary32 (quotient_word x.0 y.0) }
{
    F32::of(x.value() / y.value()).abs().0
}

// The word that an operation's gate judges, of any number.
pub fn judged(op: u32, a: F32, b: F32) -> u32
    ensures { result ≡ judged op a.0 b.0 }
{
    match op {
        number::EXP => a.0,
        number::POWF => F32::of(b.value() * a.ln().value()).0,
        number::ATAN2 | number::HYPOT => larger(a, b),
        number::TAN => unless_zero(cos::of_word(a.0), a),
        number::REM_EUCLID => quotient(a, b),
        number::DIV_EUCLID => quotient(a, b),
        _ => a.abs().0,
    }
}
