use super::code::Code;
use super::lead::Lead;
use super::mod_rm::ModRm;
use super::prefixes::Prefixes;

// The fields of an instruction: prefixes, the bytes of an address, head, opcode, ModRM and SIB, the displacement's size
// and number, the immediate's number, and where it ends.
#[derive(Clone, Copy)]
pub struct Cut {
    pub prefixes: Prefixes,
    pub width: u8,
    pub lead: Lead,
    pub code: Code,
    pub mod_rm: ModRm,
    pub displ_size: u8,
    pub displ: u64,
    pub imm: u64,
    pub end: usize,
}
