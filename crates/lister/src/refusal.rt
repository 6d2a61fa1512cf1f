use fault::Fault;
use listing::ListingFault;

// Why a line gives no bytes: it is not read, or its instruction is refused.
#[derive(Clone, Copy)]
pub enum Refusal {
    Line(ListingFault),
    Instruction(Fault),
}

impl From<ListingFault> for Refusal {
    fn from(fault: ListingFault) -> Refusal {
        Refusal::Line(fault)
    }
}

impl From<Fault> for Refusal {
    fn from(fault: Fault) -> Refusal {
        Refusal::Instruction(fault)
    }
}
