ghost use Rattle.std.specs.Prelude.{◌≡◌, true, Some, None};
ghost use Rattle.policy.specs.Lowest.{lowest};
ghost use Rattle.gather.specs.Steps.{broadcasts};
ghost use Rattle.gather.specs.Cases.{meaning};

use instruction::Instruction;
use machine::{Mode, OpKind, Register};
use policy::Policy;
use record::{Flag, Record, RegisterRange};

// What the operands are gathered for.
#[derive_where(Clone, Copy)]
pub struct Case<'a, P> {
    pub policy: &'a P,
    pub mode: Mode,
    pub record: &'a Record,
    pub instruction: &'a Instruction,
}

// An operand of the instruction.
#[derive(Clone, Copy)]
pub struct Operand {
    pub kind: OpKind,
    pub register: Register,
}

// The memory that a record takes: whether always with a SIB byte, and the vector bank of its index.
#[derive(Clone, Copy)]
pub struct MemoryForm {
    pub must_use_sib: bool,
    pub vsib: Option<RegisterRange>,
}

impl MemoryForm {
    pub(crate) fn plain(must_use_sib: bool) -> MemoryForm
        ensures { result ≡ record { must_use_sib = must_use_sib; vsib = None } }
    {
        MemoryForm {
            must_use_sib,
            vsib: None,
        }
    }

    pub(crate) fn vector(range: RegisterRange) -> MemoryForm
        ensures { result ≡ record { must_use_sib = true; vsib = Some range } }
    {
        MemoryForm {
            must_use_sib: true,
            vsib: Some(range),
        }
    }
}

impl<P: Policy> Case<'_, P> {
    // the broadcast flag of the instruction where the record has a broadcast form
    pub(crate) fn broadcasts(&self) -> bool
        ensures { result ≡ broadcasts self.now.record.now self.now.instruction.now }
    {
        self.instruction.evex.broadcast && self.record.raw.enc_flags3.has(Flag::Broadcast)
    }

    // the lowest byte that stands for the displacement
    pub(crate) fn shorten(&self, displ: i32) -> Option<i8>
        ensures { result ≡ lowest (meaning P.spread self.now) displ }
    {
        self.policy.shorten(self.record, self.broadcasts(), displ)
    }
}
