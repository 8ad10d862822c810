// The numbers of the raw operations that have blocks, or whose guarded form has: a kernel's, and 80.
use frame::words::RAW;
use guard::number;

pub(crate) const RAW_ABS: u32 = RAW + number::ABS;

pub(crate) const RAW_SQRT: u32 = RAW + number::SQRT;

pub(crate) const RAW_INVSQRT: u32 = RAW + number::INVSQRT;

pub(crate) const RAW_INV: u32 = RAW + number::INV;

pub(crate) const RAW_ATAN: u32 = RAW + number::ATAN;

pub(crate) const RAW_ATAN2: u32 = RAW + number::ATAN2;

pub(crate) const RAW_COS: u32 = RAW + number::COS;

pub(crate) const RAW_SIN: u32 = RAW + number::SIN;

pub(crate) const RAW_HYPOT: u32 = RAW + number::HYPOT;
