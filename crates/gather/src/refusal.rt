ghost use Rattle.std.specs.Prelude.{◌≡◌};
ghost use Rattle.gather.specs.Parts.{plain_part, blank};

use super::parts::{Displ, RmPart};
use fault::OperandFault;

// A refused operand, and what it leaves in its part.
#[derive(Clone, Copy)]
pub struct Refusal<T> {
    pub fault: OperandFault,
    pub left: T,
}

impl RmPart {
    // ModRM.mod and rm with a displacement, and nothing else
    pub(crate) fn plain(mode: u8, rm: u8, displ: Displ) -> RmPart
        ensures { result ≡ plain_part mode rm displ }
    {
        RmPart {
            mode,
            rm,
            b: 0,
            x: 0,
            v2: 0,
            sib: None,
            displ,
        }
    }
}

impl Refusal<RmPart> {
    // refused before anything is set
    pub(crate) fn blank(fault: OperandFault) -> Refusal<RmPart>
        ensures { (result.fault ≡ fault) × (result.left ≡ blank) }
    {
        Refusal {
            fault,
            left: RmPart::plain(0, 0, Displ::Absent),
        }
    }
}
