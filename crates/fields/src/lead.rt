// What stands between prefixes and opcode, in whole numbers as they are read, not inverted: whether REX is there, R with R' above it, X,
// B, vvvv with V' above it; of EVEX the opmask, zeroing and b. It ends where the opcode begins.
#[derive(Clone, Copy)]
pub struct Lead {
    pub end: usize,
    pub rex: bool,
    pub r: u8,
    pub x: u8,
    pub b: u8,
    pub v: u8,
    pub opmask: u8,
    pub zeroing: bool,
    pub bit: bool,
}
