ghost use Rattle.std.specs.Prelude.{◌≡◌};
ghost use Rattle.gather.specs.Gathered.{group_number, group_rm, asks_prefix, start_flags, start_parts, mode_fault, start, place_step, gathered};
ghost use Rattle.gather.specs.Laws.{OneByteExactlyWhereOneStands};

use super::case::Case;
use super::parts::{Displ, HeadFlags, Imm, Parts, RmPart};
use fault::{EncodeFault, EncodingFault};
use instruction::Instruction;
use machine::{CodeSize, Mode, Place};
use policy::Policy;
use record::{Flag, RawRecord, Record};

// Operands on their way into the parts, with the first refusal. It is moved on when the head is written, so that no
// operand can be added behind it.
pub struct Gathering {
    pub parts: Parts,
    pub fault: Option<EncodeFault>,
}

fn group_number(index: i8) -> u8
    ensures { result ≡ group_number index }
{
    u8::try_from(index).unwrap_or(0)
}

fn group_rm(index: i8) -> RmPart
    ensures { result ≡ group_rm index }
{
    match u8::try_from(index) {
        Ok(number) => RmPart::plain(3, number, Displ::Absent),
        Err(_) => RmPart::plain(0, 0, Displ::Absent),
    }
}

// whether a size asks for its prefix: 16 bits outside mode 16, 32 bits where the mode does not take them by itself
fn asks_prefix(mode: Mode, size: CodeSize, takes32: bool) -> bool
    ensures { result ≡ asks_prefix mode size takes32 }
{
    match size {
        CodeSize::Unknown | CodeSize::Code64 => false,
        CodeSize::Code16 => mode != Mode::Bits16,
        CodeSize::Code32 => !takes32,
    }
}

fn start_flags(mode: Mode, raw: &RawRecord) -> HeadFlags
    ensures { result ≡ start_flags mode raw.now }
{
    HeadFlags {
        p66: asks_prefix(mode, raw.op_size, mode != Mode::Bits16),
        p67: asks_prefix(mode, raw.addr_size, mode == Mode::Bits32),
        w: raw.op_size == CodeSize::Code64 && !raw.enc_flags3.has(Flag::DefaultOpSize64),
        rex: false,
        high: false,
        broadcast: false,
    }
}

fn start_parts(mode: Mode, raw: &RawRecord) -> Parts
    ensures { result ≡ start_parts mode raw.now }
{
    Parts {
        rm: group_rm(raw.rm_group_index),
        reg: group_number(raw.group_index),
        low: 0,
        vvvv: 0,
        imm: Imm::Absent,
        flags: start_flags(mode, raw),
    }
}

fn mode_fault(m64: bool, old: bool, new: bool) -> Option<EncodeFault>
    ensures { result ≡ mode_fault m64 old new }
{
    match (m64, old, new) {
        (true, true, false) => Some(EncodeFault::Encoding(EncodingFault::Only1632)),
        (false, false, true) => Some(EncodeFault::Encoding(EncodingFault::Only64)),
        _ => None,
    }
}

impl Gathering {
    // the parts before any operand
    #[tactic(auto, unfolding(crate::specs::Gathered::start))]
    fn start(mode: Mode, record: &Record) -> Gathering
        ensures { result ≡ start mode «record».now }
    {
        let flags = record.raw.enc_flags3;
        Gathering {
            parts: start_parts(mode, &record.raw),
            fault: mode_fault(
                mode.is64(),
                flags.has(Flag::Bit16Or32),
                flags.has(Flag::Bit64),
            ),
        }
    }

    // the operand at a place, where there is one; the first refusal is kept. Out of line, as encoding is slower by 5 in
    // 100 with it inside the loop
    #[tactic(auto, unfolding(crate::specs::Gathered::place_step))]
    #[inline(never)]
    fn add<P: Policy>(&mut self, case: &Case<P>, place: Place)
        ensures { self.new ≡ place_step (P.spread case.now.policy.now) case.now.mode case.now.«record».now case.now.instruction.now place self.old }
    {
        if let Some(op) = case.record.op(place)
            && let Err(fault) = case.op_step(place, op, &mut self.parts)
        {
            self.fault = self.fault.or(Some(EncodeFault::Operand(place, fault)));
        }
    }
}

// all operands in the order of their places
#[tactic(auto, unfolding(crate::specs::Gathered::gathered))]
pub fn gather<P: Policy>(
    policy: &P,
    mode: Mode,
    record: &Record,
    instruction: &Instruction,
) -> Gathering
    ensures value { result ≡ gathered (P.spread policy.now) mode «record».now instruction.now }
    ensures one_byte { OneByteExactlyWhereOneStands }
{
    let case = Case {
        policy,
        mode,
        record,
        instruction,
    };
    let mut gathering = Gathering::start(mode, record);
    for place in Place::ALL {
        gathering.add(&case, place);
    }
    gathering
}
