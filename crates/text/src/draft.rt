use super::code_part::{CodePart, FlagPart};
use super::row::Span;
use record::{Head, Op};

// Which part of a row a word stands in: a state that the words move on.
#[derive(Clone, Copy)]
pub(crate) enum Section {
    Name,
    Head,
    OpCode,
    Flags,
    Operands,
}

// What a row has said so far.
#[derive(Clone, Copy)]
pub(crate) struct Draft {
    pub(crate) section: Section,
    // how many words the section has had, places of operands among them
    pub(crate) words: u8,
    pub(crate) name: Span,
    pub(crate) head: Head,
    pub(crate) code: CodePart,
    pub(crate) flags: FlagPart,
    pub(crate) operands: [Option<Op>; 5],
}
