// Records: what an instruction's encoding consists of, and the rules under which a record is sound.
#![tactic(auto)]

mod class;
mod flags;
mod head;
mod imm;
mod making;
mod op;
mod parts;
mod raw;
mod rules;
mod sound;

pub use class::Class;
pub use flags::{EncFlags3, Flag};
pub use head::{EvexHead, Head, LegacyHead, VexHead};
pub use imm::ImmShape;
pub use op::{Op, Operands, RegisterRange};
pub use raw::RawRecord;
pub use sound::Record;
