ghost use Rattle.std.specs.Prelude.{◌≡◌};
ghost use Rattle.instruction.specs.Making.{or_field, size_made, kind_made, scale_made, opmask_made, rounding_made, register_made, segment_made, prefixes_made, memory_made, four_made, evex_made, instruction_of, MadeWhereInRange, MadeThere, MadeBack};

use super::made::{EvexFields, FirstFour, Instruction, MemoryFields, PrefixFields};
use super::raw::RawInstruction;
use fault::MakingFault;
use machine::{Code, Segment};

// the value of a number, or refusal 61 where it has none
fn known<T: Code + Drop>(number: u8) -> Result<T, MakingFault>
    ensures { result ≡ or_field (T.named number) }
{
    T::from_number(number).ok_or(MakingFault::Field)
}

#[tactic(auto, unfolding(crate::specs::Making::segment_made))]
fn known_segment(number: u8) -> Result<Option<Segment>, MakingFault>
    ensures { result ≡ segment_made number }
{
    if number == 0 {
        return Ok(None);
    }
    Ok(Some(known(number)?))
}

impl PrefixFields {
    fn new(raw: &RawInstruction) -> Result<PrefixFields, MakingFault>
        ensures { result ≡ prefixes_made raw.now }
    {
        Ok(PrefixFields {
            segment: known_segment(raw.segment)?,
            lock: raw.lock,
            repe: raw.repe,
            repne: raw.repne,
        })
    }
}

impl MemoryFields {
    #[tactic(auto, unfolding(crate::specs::Making::register_made, crate::specs::Making::scale_made))]
    fn new(raw: &RawInstruction) -> Result<MemoryFields, MakingFault>
        ensures { result ≡ memory_made raw.now }
    {
        Ok(MemoryFields {
            base: known(raw.base)?,
            index: known(raw.index)?,
            scale: known(raw.scale)?,
            displ_size: raw.displ_size,
        })
    }
}

impl<T: Code + Drop> FirstFour<T> {
    // the values of four numbers
    fn new(op0: u8, op1: u8, op2: u8, op3: u8) -> Result<FirstFour<T>, MakingFault>
        ensures { result ≡ four_made (λ n. or_field (T.named n)) op0 op1 op2 op3 }
    {
        Ok(FirstFour {
            op0: known(op0)?,
            op1: known(op1)?,
            op2: known(op2)?,
            op3: known(op3)?,
        })
    }
}

impl EvexFields {
    #[tactic(auto, unfolding(crate::specs::Making::opmask_made, crate::specs::Making::rounding_made))]
    fn new(raw: &RawInstruction) -> Result<EvexFields, MakingFault>
        ensures { result ≡ evex_made raw.now }
    {
        Ok(EvexFields {
            opmask: known(raw.opmask)?,
            zeroing: raw.zeroing,
            broadcast: raw.broadcast,
            sae: raw.sae,
            rounding: known(raw.rounding)?,
        })
    }
}

impl Instruction {
    // an instruction of these fields, or refusal 61 where one is out of range
    #[tactic(auto, using(crate::proofs::Ranges::made_where_in_range, crate::proofs::There::made_there, crate::proofs::Back::made_back))]
    pub fn new(raw: &RawInstruction) -> Result<Instruction, MakingFault>
        ensures value { result ≡ instruction_of raw.now }
        ensures where_in_range { MadeWhereInRange }
        ensures there { MadeThere }
        ensures back { MadeBack }
    {
        Instruction::made(raw)
    }

    #[tactic(auto, unfolding(crate::specs::Making::size_made, crate::specs::Making::kind_made, crate::specs::Making::register_made))]
    fn made(raw: &RawInstruction) -> Result<Instruction, MakingFault>
        ensures { result ≡ instruction_of raw.now }
    {
        let code_size = known(raw.code_size)?;
        let prefixes = PrefixFields::new(raw)?;
        let memory = MemoryFields::new(raw)?;
        let kinds = FirstFour::new(raw.kind0, raw.kind1, raw.kind2, raw.kind3)?;
        let registers = FirstFour::new(raw.reg0, raw.reg1, raw.reg2, raw.reg3)?;
        let evex = EvexFields::new(raw)?;
        Ok(Instruction {
            code_size,
            prefixes,
            memory,
            mem_displ: raw.mem_displ,
            immediate: raw.immediate,
            kinds,
            registers,
            evex,
        })
    }
}
