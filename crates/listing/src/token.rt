use machine::{Opmask, Register, RoundingControl};

// What stands in braces, one at a time.
#[derive(Clone, Copy)]
pub(crate) enum Decoration {
    Mask(Opmask),
    Zeroing,
    Broadcast,
    Sae,
    Rounding(RoundingControl),
}

// A mark of one byte.
#[derive(Clone, Copy)]
pub(crate) enum Mark {
    Open,
    Close,
    Plus,
    Minus,
    Times,
    Comma,
    Colon,
    Slash,
}

// The next thing on a line.
#[derive(Clone, Copy)]
pub(crate) enum Token {
    Number(u64),
    Register(Register),
    Mark(Mark),
    Decoration(Decoration),
    // a word for the size of an operand, which says nothing
    Size,
    Mode,
    At,
}
