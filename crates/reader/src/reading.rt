use super::operand::Operand;
use machine::Segment;

// What stands at each place that has an operand.
#[derive(Clone, Copy)]
pub struct ByPlace<T> {
    pub op0: Option<T>,
    pub op1: Option<T>,
    pub op2: Option<T>,
    pub op3: Option<T>,
    pub op4: Option<T>,
}

// Where each field begins, and where the instruction ends. Prefixes begin at 0.
#[derive(Clone, Copy)]
pub struct Layout {
    pub head: usize,
    pub opcode: usize,
    pub mod_rm: usize,
    pub displacement: usize,
    pub immediate: usize,
    pub end: usize,
}

// What the bytes say: operands, each with the place of its bytes, segment override, of EVEX opmask, zeroing and broadcast, and the fields' places.
#[derive(Clone, Copy)]
pub struct Reading {
    pub operands: ByPlace<(Operand, usize)>,
    pub segment: Option<Segment>,
    pub opmask: u8,
    pub zeroing: bool,
    pub broadcast: bool,
    pub layout: Layout,
}

// What an instruction says, without the places of bytes.
#[derive(Clone, Copy)]
pub struct Meaning {
    pub operands: ByPlace<Operand>,
    pub segment: Option<Segment>,
    pub opmask: u8,
    pub zeroing: bool,
    pub broadcast: bool,
}
