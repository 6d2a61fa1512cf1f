// Reads an instruction back from its bytes under a record: operands in plain numbers, each with the place of its bytes.
#![tactic(auto)]

mod field;
mod operand;
mod reading;

pub use field::{Field, FieldName};
pub use operand::{Memory, Operand};
pub use reading::{ByPlace, Layout, Meaning, Reading};
