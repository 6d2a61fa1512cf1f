use machine::Sib;

// ModRM with SIB in whole numbers as they are read, and where they end.
#[derive(Clone, Copy)]
pub struct ModRm {
    pub end: usize,
    pub mode: u8,
    pub reg: u8,
    pub rm: u8,
    pub sib: Option<Sib>,
}
