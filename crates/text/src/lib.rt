// Text to values: case lines, which machines write, and catalogue rows, which people write.
#![tactic(auto)]

mod case;
mod case_fault;
mod code_part;
mod code_words;
mod draft;
mod drafting;
mod fields;
mod flag_words;
mod head_words;
mod numbers;
mod operand_words;
mod parsing;
mod row;
mod row_fault;
mod values;
mod word;

pub use case::Case;
pub use case_fault::CaseFault;
pub use row::{Row, Span};
pub use row_fault::{RowFault, Wanted};
