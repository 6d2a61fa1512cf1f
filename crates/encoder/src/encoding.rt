ghost use Rattle.std.specs.Prelude.{◌≡◌, ◌≤◌, length};
ghost use Rattle.std.specs.Option.{option_or, option_map};
ghost use Rattle.fault.specs.declared.encode.EncodeFault.TheVariants.{Encoding};
ghost use Rattle.encoder.specs.Lines.{used};
ghost use Rattle.encoder.specs.Encode.{refuse_if, head_bytes, head_fault, answer_of, encode_of, refused_with, finished_bytes, finished_fault};
ghost use Rattle.encoder.specs.Laws.{LengthWithoutAddress, AnswerIsLength};

use super::gathered::Gathered;
use super::line::Line;
use super::settings::Settings;
use fault::{EncodeFault, EncodingFault};
use gather::{Gathering, gather};
use instruction::{Instruction, RawSettings};
use machine::{Code, Mode};
use policy::Policy;
use record::Record;

// The head is written: no operand can be added any more.
struct HeadWritten<'a> {
    line: Line,
    gathered: Gathered<'a>,
    fault: Option<EncodeFault>,
    ghost room: { line.count ≤ 11 },
}

// All bytes are written.
struct Finished {
    line: Line,
    fault: Option<EncodeFault>,
}

// An encoding: the bytes that were written, and their count or the first refusal.
#[derive(Clone, Copy)]
pub struct Encoded {
    pub line: Line,
    pub result: Result<u8, EncodeFault>,
}

fn refuse_if(there: bool, fault: EncodingFault) -> Option<EncodeFault>
    ensures { result ≡ refuse_if there fault }
{
    there.then_some(EncodeFault::Encoding(fault))
}

impl<'a> Gathered<'a> {
    fn write_head(self, fault: Option<EncodeFault>) -> HeadWritten<'a>
        ensures bytes { used result.line ≡ head_bytes self.entry.settings self.entry.record.now.raw self.entry.parts self.entry.instruction.now }
        ensures gathered { result.gathered ≡ self.entry }
        ensures fault { result.fault ≡ option_or fault (option_map Encoding (head_fault self.entry.record.now.raw self.entry.parts self.entry.instruction.now)) }
    {
        HeadWritten {
            line: Line::head(&self),
            fault: fault.or(self.head_fault().map(EncodeFault::Encoding)),
            gathered: self,
        }
    }
}

impl HeadWritten<'_> {
    fn finish(self, address: u64) -> Finished
        ensures bytes { used result.line ≡ finished_bytes address self.entry.gathered.record.now.raw self.entry.gathered.parts (used self.entry.line) }
        ensures fault { result.fault ≡ finished_fault address self.entry.gathered.record.now.raw self.entry.gathered.instruction.now self.entry.gathered.parts (used self.entry.line) self.entry.fault }
    {
        let HeadWritten {
            mut line,
            gathered,
            fault,
        } = self;
        line.push_code(&gathered);
        let rip = line.push_displacement(address, &gathered.parts);
        let branch = line.push_immediate(address, &gathered.parts);
        let fault = fault
            .or(refuse_if(rip, EncodingFault::RipDistance))
            .or(refuse_if(branch, EncodingFault::BranchDistance))
            .or(refuse_if(line.len() > 15, EncodingFault::TooLong))
            .or(refuse_if(gathered.vsib_bare(), EncodingFault::VsibWithoutIndex))
            .or(refuse_if(gathered.rounded_memory(), EncodingFault::MemoryWithRounding));
        Finished { line, fault }
    }
}

impl Finished {
    fn encoded(self) -> Encoded
        ensures line { result.line ≡ self.line }
        ensures answer { result.result ≡ answer_of self.fault (length (used self.line)) }
    {
        let Finished { line, fault } = self;
        Encoded {
            line,
            result: fault.map_or(Ok(line.len()), Err),
        }
    }
}

impl Encoded {
    fn refused(fault: EncodingFault) -> Encoded
        ensures bytes { used result.line ≡ (refused_with fault).bytes }
        ensures answer { result.result ≡ (refused_with fault).answer }
    {
        Encoded {
            line: Line::empty(),
            result: Err(EncodeFault::Encoding(fault)),
        }
    }
}

// the bytes of an instruction under a record, and their count or the first refusal; mode and settings are numbers, as
// those that are none are refused
#[tactic(auto, unfolding(crate::specs::Encode::encode_of, crate::specs::Encode::steps_of, crate::specs::Encode::line_bytes, crate::specs::Encode::line_fault))]
pub fn encode<P: Policy>(
    policy: &P,
    settings: RawSettings,
    mode: u8,
    address: u64,
    record: &Record,
    instruction: &Instruction,
) -> Encoded
    ensures bytes { used result.line ≡ (encode_of (P.spread policy.now) settings mode address «record».now instruction.now).bytes }
    ensures answer { result.result ≡ (encode_of (P.spread policy.now) settings mode address «record».now instruction.now).answer }
    ensures no_address { LengthWithoutAddress }
    ensures lengths { AnswerIsLength }
{
    let Some(mode) = Mode::from_number(mode) else {
        return Encoded::refused(EncodingFault::Mode);
    };
    let settings = match Settings::try_from(settings) {
        Ok(settings) => settings,
        Err(fault) => return Encoded::refused(fault),
    };
    let Gathering { parts, fault } = gather(policy, mode, record, instruction);
    let gathered = Gathered {
        settings,
        record,
        instruction,
        parts,
    };
    gathered.write_head(fault).finish(address).encoded()
}
