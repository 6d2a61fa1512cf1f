// A memory operand in plain numbers: the bytes of its address, base and index by register number, 0 for none, the scale as
// a power of two where an index is, and the displacement, or the target where it counts from the next instruction, modulo
// two to the bits of an address.
#[derive(Clone, Copy)]
pub struct Memory {
    pub width: u8,
    pub base: u8,
    pub index: u8,
    pub scale: u8,
    pub displ: u64,
}

// An operand in plain numbers.
#[derive(Clone, Copy)]
pub enum Operand {
    // a register by number
    Register(u8),
    Memory(Memory),
    // the bits that are written
    Immediate(u64),
    // the target, modulo two to its bits
    Branch(u64),
}
