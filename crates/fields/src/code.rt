// Where the opcode ends, and its low three bits.
#[derive(Clone, Copy)]
pub struct Code {
    pub end: usize,
    pub low: u8,
}
