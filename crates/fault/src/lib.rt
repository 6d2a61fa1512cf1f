// Every refusal: one enum a layer, and one definition that gives each case its number, place and layer.
#![tactic(auto)]

mod append;
mod code;
mod encode;
mod encoding;
mod fault;
mod making;
mod operand;
mod reader;
mod rule;
mod sheet;

pub use append::AppendFault;
pub use code::FaultCode;
pub use encode::EncodeFault;
pub use encoding::EncodingFault;
pub use fault::Fault;
pub use making::MakingFault;
pub use operand::OperandFault;
pub use reader::ReadFault;
pub use rule::Rule;
pub use sheet::SheetFault;
