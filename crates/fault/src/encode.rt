ghost use Rattle.std.specs.Prelude.{◌≡◌};
ghost use Rattle.fault.specs.declared.encode.EncodeFault.TheVariants.{Encoding};

use super::encoding::EncodingFault;
use super::operand::OperandFault;
use machine::{Code, Place};
use std::fmt;

// The first refusal of an encoding: an operand's, with its place, or another.
#[derive(Clone, Copy)]
pub enum EncodeFault {
    Operand(Place, OperandFault),
    Encoding(EncodingFault),
}

impl From<EncodingFault> for EncodeFault {
    ghost from_gives = { λ e r. r ≡ Encoding e };

    fn from(e: EncodingFault) -> EncodeFault {
        EncodeFault::Encoding(e)
    }
}

impl fmt::Display for EncodeFault {
    fn fmt<W: fmt::Write>(&self, f: &mut fmt::Formatter<W>) -> fmt::Result {
        match self {
            Self::Operand(place, fault) => {
                let place = place.number();
                write!(f, "operand {place}: {fault}")
            }
            Self::Encoding(fault) => write!(f, "{fault}"),
        }
    }
}
