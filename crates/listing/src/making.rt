// The instruction that a line asks for, as numbers.
ghost use Rattle.std.specs.Prelude.{◌≡◌, ◌<◌};
ghost use Rattle.listing.specs.Making.{expected_of, kind_of, register_of, displaced, imm_after, displ_with, displ_after, raw_size, usual_size, size_of, slot_at, slots_of, imm_of, displ_of, no_memory, memory_of, fields_of, instruction_of};

use super::drafting::count;
use super::line::{Asked, Given, Memory};
use super::line_fault::{ListingFault, Wanted};
use instruction::RawInstruction;
use machine::{Code, OpKind};
use record::{Op, Operands};
use std::array;

// An operand that is asked for, and the record's at its place.
#[derive(Clone, Copy)]
struct Slot {
    given: Option<Given>,
    op: Option<Op>,
}

// whether a number of a kind stands in the displacement alone
fn is_displaced(kind: OpKind) -> bool
    ensures { result ≡ displaced kind }
{
    matches!(
        kind,
        OpKind::NearBranch16
            | OpKind::NearBranch32
            | OpKind::NearBranch64
            | OpKind::Immediate8Second
    )
}

// what a number of a kind leaves in the displacement
fn displaced_by(kind: OpKind, number: u64, before: u64) -> u64
    ensures { result ≡ displ_with kind number before }
{
    match kind {
        OpKind::NearBranch16 | OpKind::NearBranch32 | OpKind::NearBranch64 => number,
        OpKind::Immediate8Second => number % 256,
        OpKind::Immediate64 => number / 0x1_0000_0000,
        _ => before,
    }
}

impl Slot {
    // the kind that a number has there
    fn expected(&self) -> OpKind
        ensures { result ≡ expected_of self.now.op }
    {
        match self.op {
            Some(Op::Ib(kind) | Op::Id(kind) | Op::J(kind, _)) => kind,
            Some(Op::Iq) => OpKind::Immediate64,
            _ => OpKind::Immediate8,
        }
    }

    fn kind(&self) -> OpKind
        ensures { result ≡ kind_of self.now }
    {
        match self.given {
            Some(Given::Number(_)) => self.expected(),
            Some(Given::Memory) => OpKind::Memory,
            _ => OpKind::Register,
        }
    }

    fn register(&self) -> u8
        ensures { result ≡ register_of self.now.given }
    {
        match self.given {
            Some(Given::Register(number)) => number,
            _ => 0,
        }
    }

    // the immediate after the operand
    fn immediate(&self, before: u32) -> u32
        ensures { result ≡ imm_after before self.now }
    {
        match self.given {
            Some(Given::Number(number)) if !is_displaced(self.expected()) => (number
                % 0x1_0000_0000) as u32,
            _ => before,
        }
    }

    // the displacement after the operand
    fn displacement(&self, before: u64) -> u64
        ensures { result ≡ displ_after before self.now }
    {
        match self.given {
            Some(Given::Number(number)) => displaced_by(self.expected(), number, before),
            _ => before,
        }
    }
}

fn raw_size(size: u8) -> u8
    ensures { result ≡ raw_size size }
{
    match size {
        4 => 3,
        8 => 4,
        _ => size,
    }
}

impl Memory {
    // with nothing said
    fn none() -> Memory
        ensures { result ≡ no_memory }
    {
        Memory {
            segment: 0,
            base: 0,
            index: 0,
            scale: 0,
            displ: None,
            size: None,
        }
    }

    // the number of the size where none is asked for
    fn usual_size(&self, mode: u8) -> u8
        ensures { result ≡ usual_size mode self.now }
    {
        // RIP or EIP
        if matches!(self.base, 69 | 70) {
            return 0;
        }
        if self.base != 0 || self.index != 0 {
            return self.displ.is_some() as u8;
        }
        match mode {
            16 => 2,
            32 => 3,
            _ => 4,
        }
    }

    fn size(&self, mode: u8) -> u8
        ensures { result ≡ size_of mode self.now }
    {
        self.size.map_or(self.usual_size(mode), raw_size)
    }
}

// the immediate after all operands
fn immediate(slots: &[Slot]) -> u32
    ensures { result ≡ imm_of slots.now }
{
    slots.iter().fold(0, |before, slot| slot.immediate(before))
}

// the displacement after all operands, where it was `before` at their begin
fn displacement(before: u64, slots: &[Slot]) -> u64
    ensures { result ≡ displ_of before slots.now }
{
    slots
        .iter()
        .fold(before, |before, slot| slot.displacement(before))
}

impl Asked {
    // the operand at a place, beside the record's
    fn slot(&self, ops: &[Option<Op>; 5], at: usize) -> Slot
        requires { at < 5 }
        ensures { result ≡ slot_at self.now ops.now at }
    {
        Slot {
            given: self.operands[at],
            op: ops[at],
        }
    }

    fn slots(&self, ops: &[Option<Op>; 5]) -> [Slot; 5]
        ensures { result ≡ slots_of self.now ops.now }
    {
        array::from_fn(|at| self.slot(ops, at))
    }

    fn fields(&self, mode: u8, slots: [Slot; 5]) -> RawInstruction
        ensures { result ≡ fields_of self.now mode slots }
    {
        let memory = self.memory.unwrap_or(Memory::none());
        let displ = memory.displ.unwrap_or(0);
        let [op0, op1, op2, op3, _] = slots;
        RawInstruction {
            code_size: 0,
            segment: memory.segment,
            lock: false,
            repe: false,
            repne: false,
            base: memory.base,
            index: memory.index,
            scale: memory.scale,
            displ_size: memory.size(mode),
            mem_displ: displacement(displ, &slots),
            immediate: immediate(&slots),
            kind0: op0.kind().number(),
            kind1: op1.kind().number(),
            kind2: op2.kind().number(),
            kind3: op3.kind().number(),
            reg0: op0.register(),
            reg1: op1.register(),
            reg2: op2.register(),
            reg3: op3.register(),
            opmask: self.dress.opmask,
            zeroing: self.dress.zeroing,
            broadcast: self.dress.broadcast,
            sae: self.dress.sae,
            rounding: self.dress.rounding,
        }
    }

    // the instruction in a mode, its kinds by the record's operands; a fault where the record has fewer operands.
    // The mode is a number, as `encode` takes it: one that no mode has counts as 64.
    pub fn instruction(&self, mode: u8, operands: &Operands) -> Result<RawInstruction, ListingFault>
        ensures { result ≡ instruction_of self.now mode operands.now }
    {
        let ops = operands.places();
        if self.count as usize > count(&ops) {
            return Err(ListingFault {
                column: self.column,
                wanted: Wanted::FewerOperands,
            });
        }
        Ok(self.fields(mode, self.slots(&ops)))
    }
}
