// A gathered instruction, and what the encoder asks of it before it writes.
ghost use Rattle.std.specs.Prelude.{◌≡◌};
ghost use Rattle.encoder.specs.Encode.{base_alone, vsib_bare, memory_at, uses_memory, rounds_evex, rounded_memory};
ghost use Rattle.encoder.specs.Heads.{rounds};

use super::settings::Settings;
use gather::Parts;
use instruction::Instruction;
use machine::{OpKind, Place, RoundingControl};
use record::{Class, Record};

// An instruction with its record and the settings, and the parts that its operands came to.
#[derive(Drop)]
pub(crate) struct Gathered<'a> {
    pub settings: Settings,
    pub record: &'a Record,
    pub instruction: &'a Instruction,
    pub parts: Parts,
}

impl Gathered<'_> {
    // an address with a vector index has a base and no index
    #[tactic(auto, unfolding(crate::specs::Encode::vsib_bare, crate::specs::Encode::base_alone))]
    pub(crate) fn vsib_bare(&self) -> bool
        ensures { result ≡ vsib_bare self.now.record.now.raw self.now.instruction.now }
    {
        let memory = &self.instruction.memory;
        memory.base.number != 0
            && memory.index.number == 0
            && self.record.raw.operands.has(Class::Vector)
    }

    #[tactic(auto, unfolding(crate::specs::Encode::memory_at))]
    fn memory_at(&self, place: Place) -> bool
        ensures { result ≡ memory_at self.now.record.now.raw self.now.instruction.now place }
    {
        self.record
            .op(place)
            .is_some_and(|op| op.belongs(Class::Memory))
            && self.instruction.op_kind(place) == OpKind::Memory
    }

    // some operand is memory under ModRM
    #[tactic(auto, unfolding(crate::specs::Encode::uses_memory))]
    fn uses_memory(&self) -> bool
        ensures { result ≡ uses_memory self.now.record.now.raw self.now.instruction.now }
    {
        Place::ALL.iter().any(|place| self.memory_at(*place))
    }

    // rounding is asked
    pub(crate) fn rounds(&self) -> bool
        ensures { result ≡ rounds self.now.instruction.now.evex }
    {
        self.instruction.evex.rounding != RoundingControl::Unstated
    }

    // EVEX memory with suppress-all-exceptions or rounding
    #[tactic(auto, unfolding(crate::specs::Encode::rounded_memory))]
    pub(crate) fn rounded_memory(&self) -> bool
        ensures { result ≡ rounded_memory self.now.record.now.raw self.now.instruction.now }
    {
        self.record.raw.head.is_evex()
            && (self.instruction.evex.sae || self.rounds())
            && self.uses_memory()
    }
}
