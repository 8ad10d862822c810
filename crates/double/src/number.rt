// The number of each kernel that doubles have, guarded: the same as in a frame.
pub const TRUNC: u32 = 0x01;

pub const FRACT: u32 = 0x02;

pub const SQRT: u32 = 0x09;

pub const INV: u32 = 0x0b;

// And raw: 80 more.
pub const RAW_TRUNC: u32 = 0x81;

pub const RAW_FRACT: u32 = 0x82;

pub const RAW_SQRT: u32 = 0x89;

pub const RAW_INV: u32 = 0x8b;
