ghost use Rattle.std.specs.Prelude.{◌≡◌};
ghost use Rattle.fault.specs.Numbers.{coded, fault_code, rule_number};
ghost use Rattle.fault.specs.declared.fault.Fault.TheVariants.{Making, Encode, Append, Read};

use super::append::AppendFault;
use super::code::FaultCode;
use super::encode::EncodeFault;
use super::making::MakingFault;
use super::reader::ReadFault;
use super::rule::Rule;
use machine::Code;
use std::fmt;

// A refusal of any layer.
#[derive(Clone, Copy)]
pub enum Fault {
    Making(MakingFault),
    Encode(EncodeFault),
    Append(AppendFault),
    Read(ReadFault),
}

impl From<MakingFault> for Fault {
    ghost from_gives = { λ e r. r ≡ Making e };

    fn from(e: MakingFault) -> Fault {
        Fault::Making(e)
    }
}

impl From<EncodeFault> for Fault {
    ghost from_gives = { λ e r. r ≡ Encode e };

    fn from(e: EncodeFault) -> Fault {
        Fault::Encode(e)
    }
}

impl From<AppendFault> for Fault {
    ghost from_gives = { λ e r. r ≡ Append e };

    fn from(e: AppendFault) -> Fault {
        Fault::Append(e)
    }
}

impl From<ReadFault> for Fault {
    ghost from_gives = { λ e r. r ≡ Read e };

    fn from(e: ReadFault) -> Fault {
        Fault::Read(e)
    }
}

impl Fault {
    // number, place and layer
    pub fn code(self) -> FaultCode
        ensures { result ≡ fault_code self }
    {
        match self {
            Fault::Making(fault) => making_code(fault),
            Fault::Encode(fault) => encode_code(fault),
            Fault::Append(AppendFault::Encode(fault)) => encode_code(fault),
            Fault::Append(AppendFault::Sheet(fault)) => whole(fault as u8, 4),
            Fault::Read(fault) => whole(fault as u8, 5),
        }
    }
}

fn whole(number: u8, layer: u8) -> FaultCode
    ensures { result ≡ coded number 5 layer }
{
    FaultCode {
        number,
        place: 5,
        layer,
    }
}

fn making_code(fault: MakingFault) -> FaultCode
    ensures { result ≡ fault_code (Making fault) }
{
    match fault {
        MakingFault::Unsound(_) => whole(60, 1),
        MakingFault::Field => whole(61, 1),
    }
}

fn encode_code(fault: EncodeFault) -> FaultCode
    ensures { result ≡ fault_code (Encode fault) }
{
    match fault {
        EncodeFault::Operand(place, fault) => FaultCode {
            number: fault as u8,
            place: place.number(),
            layer: 2,
        },
        EncodeFault::Encoding(fault) => whole(fault as u8, 3),
    }
}

impl Rule {
    // the number of a rule, 1 to 8
    pub fn number(self) -> u8
        ensures { result ≡ rule_number self }
    {
        self as u8
    }
}

// what is wrong, and what was expected, with the refusal's number and layer
impl fmt::Display for Fault {
    fn fmt<W: fmt::Write>(&self, f: &mut fmt::Formatter<W>) -> fmt::Result {
        match self {
            Self::Making(fault) => write!(f, "{fault}")?,
            Self::Encode(fault) => write!(f, "{fault}")?,
            Self::Append(fault) => write!(f, "{fault}")?,
            Self::Read(fault) => write!(f, "{fault}")?,
        }
        let FaultCode { number, layer, .. } = self.code();
        write!(f, " (refusal {number}, layer {layer})")
    }
}
