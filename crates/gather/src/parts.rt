// What the operands come to: whole numbers, which only the writing cuts into bits.
use machine::Sib;

// The displacement to be written, in the source's cases.
#[derive(Clone, Copy)]
pub enum Displ {
    Absent,
    Size1(u8),
    Size2(u16),
    Size4(u32),
    Size8(u64),
    // four bytes to a target of 32 bits, counted from the next instruction
    RipRelSize4Target32(u32),
    // four bytes to a target of 64 bits
    RipRelSize4Target64(u64),
}

// The part of the encoding that the operand in ModRM.rm owns: ModRM.mod and rm, the bits B, X and V', SIB and
// displacement.
#[derive(Clone, Copy)]
pub struct RmPart {
    pub mode: u8,
    pub rm: u8,
    pub b: u8,
    pub x: u8,
    pub v2: u8,
    pub sib: Option<Sib>,
    pub displ: Displ,
}

// The immediate to be written, in the source's cases.
#[derive(Clone, Copy)]
pub enum Imm {
    Absent,
    Size1(u8),
    Size1And1(u8, u8),
    Size4(u32),
    Size8(u64),
    // branches, by the size of the displacement and of the target
    RipRelSize1Target16(u16),
    RipRelSize1Target32(u32),
    RipRelSize1Target64(u64),
    RipRelSize2Target16(u16),
    RipRelSize4Target32(u32),
    RipRelSize4Target64(u64),
}

// What the head has to say besides numbers.
#[derive(Clone, Copy)]
pub struct HeadFlags {
    pub p66: bool,
    pub p67: bool,
    pub w: bool,
    pub rex: bool,
    pub high: bool,
    pub broadcast: bool,
}

// Everything that the operands come to: the part of ModRM.rm, the register in ModRM.reg with R and R', the low three
// bits of the opcode's register, the register in vvvv with V', the immediate, and the flags.
#[derive(Clone, Copy)]
pub struct Parts {
    pub rm: RmPart,
    pub reg: u8,
    pub low: u8,
    pub vvvv: u8,
    pub imm: Imm,
    pub flags: HeadFlags,
}
