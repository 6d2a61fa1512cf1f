ghost use Rattle.std.specs.Prelude.{◌≡◌};
ghost use Rattle.record.specs.Facts.{op_at, has_mod_rm, imm_bytes, RulesKept, SlotsOwnedOnce, ModRmFollows, ImmBytesKnown, ImmediatesOwnedOnce, FirstByteBegins, BanksKnown};

use super::class::Class;
use super::op::{Op, Operands};
use super::raw::RawRecord;
use super::sound::Record;
use machine::Place;

impl Operands {
    fn at(&self, place: Place) -> Option<Op>
        ensures { result ≡ op_at self.now place }
    {
        match place {
            Place::Op0 => self.op0,
            Place::Op1 => self.op1,
            Place::Op2 => self.op2,
            Place::Op3 => self.op3,
            Place::Op4 => self.op4,
        }
    }
}

impl RawRecord {
    fn asks_mod_rm(&self) -> bool
        ensures { result ≡ has_mod_rm self.now }
    {
        let operand = self.operands.has(Class::Memory) || self.operands.has(Class::RegSlot);
        let group = self.group_index >= 0 || self.rm_group_index >= 0;
        operand || group
    }

    fn imm_bytes(&self) -> u8
        ensures { result ≡ imm_bytes self.now }
    {
        self.operands.immediates().count()
    }
}

// What the encoder and the reader ask of a sound record, and what follows of its being sound.
impl Record {
    // the operand at a place
    #[tactic(auto, using(crate::proofs::BankFacts::banks_known))]
    pub fn op(&self, place: Place) -> Option<Op>
        ensures value { result ≡ op_at self.now.raw.operands place }
        ensures once { SlotsOwnedOnce }
        ensures banks { BanksKnown }
    {
        self.raw.operands.at(place)
    }

    // whether there is a ModRM byte
    #[tactic(auto, using(crate::proofs::ModRms::mod_rm_follows))]
    pub fn has_mod_rm(&self) -> bool
        ensures value { result ≡ has_mod_rm self.now.raw }
        ensures follows { ModRmFollows }
    {
        self.raw.asks_mod_rm()
    }

    // how many immediate bytes there are
    #[tactic(auto, using(crate::proofs::ImmBytes::imm_bytes_known, crate::proofs::ImmSlots::immediates_owned_once))]
    pub fn immediate_bytes(&self) -> u8
        ensures value { result ≡ imm_bytes self.now.raw }
        ensures few { ImmBytesKnown }
        ensures once { ImmediatesOwnedOnce }
    {
        self.raw.imm_bytes()
    }

    // the fields; they keep every rule, and the first byte of a legacy record begins an opcode
    #[tactic(auto, using(crate::proofs::Soundness::rules_kept))]
    pub fn fields(&self) -> &RawRecord
        ensures value { result.now ≡ self.now.raw }
        ensures kept { RulesKept }
        ensures begins { FirstByteBegins }
    {
        &self.raw
    }
}
