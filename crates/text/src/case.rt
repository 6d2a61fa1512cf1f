use instruction::{RawInstruction, RawSettings};
use record::RawRecord;

// One case: where and how a record's instruction is to be encoded. The mode is a number, whatever its value.
#[derive(Clone, Copy)]
pub struct Case {
    pub mode: u64,
    pub rip: u64,
    pub settings: RawSettings,
    pub record: RawRecord,
    pub instruction: RawInstruction,
}
