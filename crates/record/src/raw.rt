use super::flags::EncFlags3;
use super::head::Head;
use super::op::Operands;
use machine::CodeSize;

// The fields of a record, whatever their values, so numbers: those of the source's OpCodeHandler, of one head, the two
// scales of a one-byte displacement, and the operands.
#[derive(Clone, Copy)]
pub struct RawRecord {
    pub head: Head,
    pub op_code: u32,
    pub group_index: i8,
    pub rm_group_index: i8,
    pub enc_flags3: EncFlags3,
    pub op_size: CodeSize,
    pub addr_size: CodeSize,
    pub is_2byte_opcode: bool,
    pub n: u8,
    pub nb: u8,
    pub operands: Operands,
}
