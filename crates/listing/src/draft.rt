ghost use Rattle.std.specs.Prelude.{◌≡◌};
ghost use Rattle.listing.specs.Drafts.{setting_of};

use super::line::Line;
use super::request::Request;
use machine::{Mode, Register, Segment};

// What holds from a line on.
#[derive(Clone, Copy)]
pub(crate) enum Setting {
    Mode(Mode),
    At(u64),
}

impl Setting {
    pub(crate) fn line(self) -> Line
        ensures { result ≡ setting_of self }
    {
        match self {
            Setting::Mode(mode) => Line::Mode(mode),
            Setting::At(address) => Line::At(address),
        }
    }
}

// What may come next on a line: a state that each thing moves on.
#[derive(Clone, Copy)]
pub(crate) enum Stage {
    First,
    Mode,
    Address,
    // the line is complete
    Done(Setting),
    Operand,
    // the number behind a minus
    Negative,
    // behind a register, which may turn out to be a segment
    Register(Register),
    // memory behind a segment
    Open(Segment),
    // a part of an address; the flag says that a minus is before it
    Term(bool),
    // behind a register of an address
    Held(Register),
    Factor,
    // behind another part of an address
    Close,
    // behind the address
    Memory,
    Size,
    // behind an operand
    After,
}

// What the words so far say, and the column of the next.
#[derive(Clone, Copy)]
pub(crate) struct Draft {
    pub(crate) stage: Stage,
    pub(crate) column: usize,
    pub(crate) request: Request,
}
