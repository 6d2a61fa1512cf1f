// The encoder: operands, head and fields of one instruction into a line of bytes.
#![tactic(auto)]

mod distance;
mod encoding;
mod fields;
mod gathered;
mod head;
mod line;
mod settings;

pub use encoding::{Encoded, encode};
pub use instruction::RawSettings;
pub use line::Line;
pub use settings::{EvexLig, Settings};
