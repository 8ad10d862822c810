// The gates of doubles. Every gate's bound stands in this table and nowhere else.
ghost use Rattle.std.specs.Prelude.{◌≡◌};
ghost use Rattle.double.specs.Refusals.{gate_of, passes};

use crate::F64;
use format::Number;

// Every finite magnitude passes.
const OPEN: u64 = 0x7fef_ffff_ffff_ffff;

// The highest magnitude that passes, by operation number, from 00, which is no operation.
const GATES: [u64; 12] = [
    OPEN,
    0x43ef_ffff_ffff_ffff, // trunc: |x| under 2^64
    0x43ef_ffff_ffff_ffff, // fract: the same
    OPEN,
    OPEN,
    OPEN,
    OPEN,
    OPEN,
    OPEN,
    OPEN, // sqrt
    OPEN,
    0x7fd0_0000_0000_0000, // inv: |x| to 2^1022
];

// The row of an operation, of any number. A caller that names its operation has it folded in.
pub fn of(op: u32) -> u64
    ensures { result ≡ gate_of op }
{
    if op < 12 {
        return GATES[op as usize];
    }
    OPEN
}

pub fn passes(gate: u64, x: F64) -> bool
    ensures { result ≡ passes gate x.0 }
{
    x.without_sign().0 <= gate
}
