ghost use Rattle.std.specs.Prelude.{◌≡◌};
ghost use Rattle.fault.specs.declared.append.AppendFault.TheVariants.{Encode, Sheet};

use super::encode::EncodeFault;
use super::sheet::SheetFault;
use std::fmt;

// The refusal of an append: the sheet's own, or the encoding's, which stands whole inside.
#[derive(Clone, Copy)]
pub enum AppendFault {
    Sheet(SheetFault),
    Encode(EncodeFault),
}

impl From<EncodeFault> for AppendFault {
    ghost from_gives = { λ e r. r ≡ Encode e };

    fn from(e: EncodeFault) -> AppendFault {
        AppendFault::Encode(e)
    }
}

impl From<SheetFault> for AppendFault {
    ghost from_gives = { λ e r. r ≡ Sheet e };

    fn from(e: SheetFault) -> AppendFault {
        AppendFault::Sheet(e)
    }
}

impl fmt::Display for AppendFault {
    fn fmt<W: fmt::Write>(&self, f: &mut fmt::Formatter<W>) -> fmt::Result {
        match self {
            Self::Sheet(fault) => write!(f, "{fault}"),
            Self::Encode(fault) => write!(f, "{fault}"),
        }
    }
}
