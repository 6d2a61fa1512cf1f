// What a line says. Registers, masks and the like are numbers here, and any number may be handed in: what a line of text
// asks for is told by `Request`, whose registers, segments, scales, masks and roundings are such as there are.
use machine::Mode;

// One operand, a register by its number. Its memory stands once for the whole line.
#[derive(Clone, Copy)]
pub enum Given {
    Register(u8),
    Number(u64),
    Memory,
}

// The memory operand: registers by number, 0 for none, the factor as a power of two, the size in bytes where it is asked for.
#[derive(Clone, Copy)]
pub struct Memory {
    pub segment: u8,
    pub base: u8,
    pub index: u8,
    pub scale: u8,
    pub displ: Option<u64>,
    pub size: Option<u8>,
}

// What stands in braces.
#[derive(Clone, Copy)]
pub struct Dress {
    pub opmask: u8,
    pub zeroing: bool,
    pub broadcast: bool,
    pub sae: bool,
    pub rounding: u8,
}

// An instruction that is asked for, its operands by place. The column is the last operand's, counted from 1.
#[derive(Clone, Copy)]
pub struct Asked {
    pub number: u16,
    pub count: u8,
    pub column: usize,
    pub operands: [Option<Given>; 5],
    pub memory: Option<Memory>,
    pub dress: Dress,
}

#[derive(Clone, Copy)]
pub enum Line {
    Mode(Mode),
    At(u64),
    Asked(Asked),
}
