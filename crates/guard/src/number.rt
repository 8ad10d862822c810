// The number of each guarded operation in a frame. A raw one's is this and 80.
pub const TRUNC: u32 = 0x01;

pub const FRACT: u32 = 0x02;

pub const FLOOR: u32 = 0x03;

pub const CEIL: u32 = 0x04;

pub const ROUND: u32 = 0x05;

pub const ABS: u32 = 0x06;

pub const COPYSIGN: u32 = 0x07;

pub const SIGNUM: u32 = 0x08;

pub const SQRT: u32 = 0x09;

pub const INVSQRT: u32 = 0x0a;

pub const INV: u32 = 0x0b;

pub const RECIP: u32 = 0x0c;

pub const EXP: u32 = 0x0d;

pub const LN: u32 = 0x0e;

pub const POWI: u32 = 0x0f;

pub const POWF: u32 = 0x10;

pub const ATAN: u32 = 0x11;

pub const ATAN2: u32 = 0x12;

pub const COS: u32 = 0x13;

pub const SIN: u32 = 0x14;

pub const HYPOT: u32 = 0x15;

pub const ASIN: u32 = 0x16;

pub const ACOS: u32 = 0x17;

pub const TAN: u32 = 0x18;

pub const REM_EUCLID: u32 = 0x19;

pub const DIV_EUCLID: u32 = 0x1a;
