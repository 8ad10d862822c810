// The raw kernels by name, and by the number of each in a frame, without the 80 that marks a raw one.
// `frame` answers its raw frames by it, and `guard` states its laws over the list.
#![tactic(auto)]

ghost use Rattle.std.specs.Prelude.{◌≡◌};
ghost use Rattle.raw.specs.Raw.{kernel_of, operands_of, raw_of};

use float::F32;

mod kernel;

pub use kernel::Kernel;

// How many words the kernel reads: 1 or 2, and 0 where the number, which may be any, has no kernel.
pub fn operands(number: u32) -> u32
    ensures { result ≡ operands_of (kernel_of number) }
{
    match Kernel::try_from(number) {
        Ok(kernel) => kernel.operands(),
        Err(_) => 0,
    }
}

// The kernel's answer to two words, and 0 where the number has no kernel.
#[inline(always)]
pub fn answer(number: u32, a: u32, b: u32) -> u32
    ensures { result ≡ raw_of (kernel_of number) a b }
{
    match Kernel::try_from(number) {
        Ok(kernel) => kernel.answer(F32(a), F32(b)).0,
        Err(_) => 0,
    }
}
