// Instructions and settings: fields as numbers, the ones in range, and what the encoder asks of them.
#![tactic(auto)]

mod getters;
mod made;
mod making;
mod raw;
mod settings;

pub use made::{
    EvexFields, FirstFour, Instruction, MemoryFields, OperandKinds, OperandRegisters, PrefixFields,
};
pub use raw::RawInstruction;
pub use settings::RawSettings;
