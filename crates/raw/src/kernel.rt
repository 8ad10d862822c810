// The kernels by name, and the number of each in a frame.
ghost use Rattle.std.specs.Prelude.{◌≡◌};
ghost use Rattle.raw.specs.Raw.{kernel_of, operands_of, raw_of};
ghost use Rattle.raw.specs.Numbers.{number_of, Named};

use float::{F32, cast};
use format::Number;
use refusals::Refusal;

// In the order of their numbers, from 1.
#[derive(Clone, Copy, Debug, PartialEq, Eq)]
pub enum Kernel {
    Trunc,
    Fract,
    Floor,
    Ceil,
    Round,
    Abs,
    Copysign,
    Signum,
    Sqrt,
    Invsqrt,
    Inv,
    Recip,
    Exp,
    Ln,
    Powi,
    Powf,
    Atan,
    Atan2,
    Cos,
    Sin,
    Hypot,
    Asin,
    Acos,
    Tan,
    RemEuclid,
    DivEuclid,
}

// A number that no kernel has is refused with 6.
impl TryFrom<u32> for Kernel {
    type Error = Refusal;

    ghost try_from_gives = { Named };

    fn try_from(number: u32) -> Result<Kernel, Refusal> {
        match number {
            0x01 => Ok(Kernel::Trunc),
            0x02 => Ok(Kernel::Fract),
            0x03 => Ok(Kernel::Floor),
            0x04 => Ok(Kernel::Ceil),
            0x05 => Ok(Kernel::Round),
            0x06 => Ok(Kernel::Abs),
            0x07 => Ok(Kernel::Copysign),
            0x08 => Ok(Kernel::Signum),
            0x09 => Ok(Kernel::Sqrt),
            0x0a => Ok(Kernel::Invsqrt),
            0x0b => Ok(Kernel::Inv),
            0x0c => Ok(Kernel::Recip),
            0x0d => Ok(Kernel::Exp),
            0x0e => Ok(Kernel::Ln),
            0x0f => Ok(Kernel::Powi),
            0x10 => Ok(Kernel::Powf),
            0x11 => Ok(Kernel::Atan),
            0x12 => Ok(Kernel::Atan2),
            0x13 => Ok(Kernel::Cos),
            0x14 => Ok(Kernel::Sin),
            0x15 => Ok(Kernel::Hypot),
            0x16 => Ok(Kernel::Asin),
            0x17 => Ok(Kernel::Acos),
            0x18 => Ok(Kernel::Tan),
            0x19 => Ok(Kernel::RemEuclid),
            0x1a => Ok(Kernel::DivEuclid),
            _ => Err(Refusal::NoSuchOperation),
        }
    }
}

impl Kernel {
    // How many words it reads.
    pub fn operands(self) -> u32
        ensures { result ≡ operands_of (kernel_of (number_of self)) }
    {
        match self {
            Kernel::Powi
            | Kernel::Copysign
            | Kernel::Powf
            | Kernel::Atan2
            | Kernel::Hypot
            | Kernel::RemEuclid
            | Kernel::DivEuclid => 2,
            _ => 1,
        }
    }

    // Its answer to two words. One of one operand does not look at the second; powi's power is the
    // second word in two's complement.
    #[inline(always)]
    pub fn answer(self, a: F32, b: F32) -> F32
        ensures { result.0 ≡ raw_of (kernel_of (number_of self)) a.0 b.0 }
    {
        match self {
            Kernel::Trunc => a.trunc(),
            Kernel::Fract => a.fract(),
            Kernel::Floor => a.floor(),
            Kernel::Ceil => a.ceil(),
            Kernel::Round => a.round(),
            Kernel::Abs => a.abs(),
            Kernel::Copysign => a.copysign(b),
            Kernel::Signum => a.signum(),
            Kernel::Sqrt => a.sqrt(),
            Kernel::Invsqrt => a.invsqrt(),
            Kernel::Inv => a.inv(),
            Kernel::Recip => a.recip(),
            Kernel::Exp => a.exp(),
            Kernel::Ln => a.ln(),
            Kernel::Powi => a.powi(cast::i32_of_bits(b.0)),
            Kernel::Powf => a.powf(b),
            Kernel::Atan => a.atan(),
            Kernel::Atan2 => a.atan2(b),
            Kernel::Cos => a.cos(),
            Kernel::Sin => a.sin(),
            Kernel::Hypot => a.hypot(b),
            Kernel::Asin => a.asin(),
            Kernel::Acos => a.acos(),
            Kernel::Tan => a.tan(),
            Kernel::RemEuclid => a.rem_euclid(b),
            Kernel::DivEuclid => a.div_euclid(b),
        }
    }
}
