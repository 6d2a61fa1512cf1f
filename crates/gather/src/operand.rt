// One operand into the parts.
ghost use Rattle.std.specs.Prelude.{◌≡◌, false, None};
ghost use Rattle.gather.specs.Cases.{meaning};
ghost use Rattle.gather.specs.Steps.{mem_sized, register_step, rm_memory, mem_only, rm_step, told, op_step, put_rm_register};
ghost use Rattle.gather.specs.Registers.{ranged_register};

use super::address::address_bytes;
use super::case::{Case, MemoryForm, Operand};
use super::parts::{Imm, Parts, RmPart};
use super::refusal::Refusal;
use fault::OperandFault;
use machine::Place;
use policy::Policy;
use record::{Op, RegisterRange};

impl<P: Policy> Case<'_, P> {
    // a memory operand by the size of its address
    fn mem_sized(&self, bytes: u8, form: MemoryForm) -> Result<RmPart, Refusal<RmPart>>
        ensures { result ≡ mem_sized (meaning P.spread self.now) self.now.mode bytes form.must_use_sib form.vsib self.now.instruction.now }
    {
        if bytes != 2 {
            return self.mem(bytes, form);
        }
        if form.vsib.is_some() {
            return Err(Refusal::blank(OperandFault::Vsib16));
        }
        self.mem16()
    }

    // memory in ModRM.rm
    #[tactic(auto, unfolding(crate::specs::Steps::rm_memory))]
    fn rm_memory(&self, form: MemoryForm, parts: &mut Parts) -> Result<(), OperandFault>
        ensures parts { parts.new ≡ (rm_memory (P.spread self.now.policy.now) self.now.mode self.now.record.now self.now.instruction.now form.must_use_sib form.vsib parts.old).parts }
        ensures told { result ≡ told (rm_memory (P.spread self.now.policy.now) self.now.mode self.now.record.now self.now.instruction.now form.must_use_sib form.vsib parts.old) }
    {
        let bytes = address_bytes(self.mode, self.instruction);
        let p67 = bytes != self.mode.bytes();
        let broadcast = self.broadcasts();
        // not by a pair of what is put and the answer, which made encoding slower by 7 in 100
        match self.mem_sized(bytes, form) {
            Ok(part) => {
                parts.put_memory(part, p67, broadcast);
                Ok(())
            }
            Err(Refusal { fault, left }) => {
                parts.put_memory(left, p67, broadcast);
                Err(fault)
            }
        }
    }

    // memory in ModRM.rm and nothing else
    fn mem_only_step(
        &self,
        operand: Operand,
        form: MemoryForm,
        parts: &mut Parts,
    ) -> Result<(), OperandFault>
        ensures parts { parts.new ≡ (mem_only operand.kind parts.old (rm_memory (P.spread self.now.policy.now) self.now.mode self.now.record.now self.now.instruction.now form.must_use_sib form.vsib parts.old)).parts }
        ensures told { result ≡ told (mem_only operand.kind parts.old (rm_memory (P.spread self.now.policy.now) self.now.mode self.now.record.now self.now.instruction.now form.must_use_sib form.vsib parts.old)) }
    {
        if operand.is_register() {
            return Err(OperandFault::RegisterNotAllowed);
        }
        if !operand.is_memory() {
            return Err(OperandFault::NeitherRegisterNorMemory);
        }
        self.rm_memory(form, parts)
    }

    // a register of the range, or memory, in ModRM.rm
    fn rm_step(
        &self,
        operand: Operand,
        range: RegisterRange,
        parts: &mut Parts,
    ) -> Result<(), OperandFault>
        ensures parts { parts.new ≡ (rm_step operand.kind parts.old (register_step parts.old (put_rm_register parts.old) (ranged_register self.now.mode range operand.register.number)) (rm_memory (P.spread self.now.policy.now) self.now.mode self.now.record.now self.now.instruction.now false None parts.old)).parts }
        ensures told { result ≡ told (rm_step operand.kind parts.old (register_step parts.old (put_rm_register parts.old) (ranged_register self.now.mode range operand.register.number)) (rm_memory (P.spread self.now.policy.now) self.now.mode self.now.record.now self.now.instruction.now false None parts.old)) }
    {
        if operand.is_register() {
            parts.put_rm_register(self.ranged_register(operand, range)?);
            return Ok(());
        }
        if !operand.is_memory() {
            return Err(OperandFault::NeitherRegisterNorMemory);
        }
        self.rm_memory(MemoryForm::plain(false), parts)
    }

    // one operand
    #[tactic(auto, unfolding(crate::specs::Steps::op_step))]
    pub(crate) fn op_step(
        &self,
        place: Place,
        op: Op,
        parts: &mut Parts,
    ) -> Result<(), OperandFault>
        ensures parts { parts.new ≡ (op_step (P.spread self.now.policy.now) self.now.mode self.now.record.now self.now.instruction.now place op parts.old).parts }
        ensures told { result ≡ told (op_step (P.spread self.now.policy.now) self.now.mode self.now.record.now self.now.instruction.now place op parts.old) }
    {
        let operand = Operand {
            kind: self.instruction.op_kind(place),
            register: self.instruction.op_register(place),
        };
        match op {
            Op::ModRmRm(range) => self.rm_step(operand, range, parts)?,
            Op::ModRmRmMemOnly(must_use_sib) => {
                self.mem_only_step(operand, MemoryForm::plain(must_use_sib), parts)?;
            }
            Op::Vsib(range) => {
                self.mem_only_step(operand, MemoryForm::vector(range), parts)?;
            }
            Op::O => match self.absolute(operand) {
                Ok(offset) => parts.put_offset(offset),
                Err(Refusal { fault, left }) => {
                    parts.put_offset(left);
                    return Err(fault);
                }
            },
            Op::ModRmReg(range) => parts.put_reg(self.register_operand(operand, range)?),
            Op::RegEmbed8(range) => parts.put_embedded(self.register_operand(operand, range)?),
            Op::Reg(wanted) => operand.fixed_told(wanted)?,
            Op::Hx(range) => parts.put_vvvv(self.register_operand(operand, range)?),
            Op::Ib(expected) => {
                parts.imm = self.byte_operand(operand, expected, parts.imm)?;
            }
            Op::Id(expected) => {
                parts.imm = operand.expecting(expected, Imm::Size4(self.instruction.immediate))?;
            }
            Op::Iq => parts.imm = self.wide_operand(operand)?,
            Op::J(expected, size) => {
                parts.put_branch(self.branch_operand(operand, expected, size)?);
            }
        }
        Ok(())
    }
}
