// Immediate operands and branches.
ghost use Rattle.std.specs.Prelude.{◌≡◌};
ghost use Rattle.gather.specs.Immediates.{expecting, byte_operand, wide_operand, branch_of, branch_operand};

use super::case::{Case, Operand};
use super::parts::Imm;
use fault::OperandFault;
use instruction::Instruction;
use machine::{Mode, OpKind};
use policy::Policy;

// A branch to be written, and whether it asks for a 66 prefix.
#[derive(Clone, Copy)]
pub struct Branch {
    pub imm: Imm,
    pub p66: bool,
}

fn branch_of(mode: Mode, kind: OpKind, size: u8, instruction: &Instruction) -> Branch
    ensures { result ≡ branch_of mode kind size instruction.now }
{
    let short = size == 1;
    match kind {
        OpKind::NearBranch16 => {
            let target = instruction.near_branch16();
            Branch {
                imm: if short {
                    Imm::RipRelSize1Target16(target)
                } else {
                    Imm::RipRelSize2Target16(target)
                },
                p66: mode != Mode::Bits16,
            }
        }
        OpKind::NearBranch32 => {
            let target = instruction.near_branch32();
            Branch {
                imm: if short {
                    Imm::RipRelSize1Target32(target)
                } else {
                    Imm::RipRelSize4Target32(target)
                },
                p66: mode == Mode::Bits16,
            }
        }
        _ => {
            let target = instruction.mem_displ;
            Branch {
                imm: if short {
                    Imm::RipRelSize1Target64(target)
                } else {
                    Imm::RipRelSize4Target64(target)
                },
                p66: false,
            }
        }
    }
}

impl Operand {
    // what an operand gives where its kind is the one expected
    pub(crate) fn expecting<T: Copy>(self, expected: OpKind, given: T) -> Result<T, OperandFault>
        ensures { result ≡ expecting expected self.kind given }
    {
        if expected == self.kind {
            Ok(given)
        } else {
            Err(OperandFault::OpKind)
        }
    }
}

impl<P: Policy> Case<'_, P> {
    // an immediate byte, the second where another stands before it
    pub(crate) fn byte_operand(
        &self,
        operand: Operand,
        expected: OpKind,
        before: Imm,
    ) -> Result<Imm, OperandFault>
        ensures { result ≡ byte_operand before expected operand.kind self.now.instruction.now }
    {
        match before {
            Imm::Size1(first) => {
                let second = self.instruction.immediate8_2nd();
                operand.expecting(OpKind::Immediate8Second, Imm::Size1And1(first, second))
            }
            _ => operand.expecting(expected, Imm::Size1(self.instruction.immediate8())),
        }
    }

    pub(crate) fn wide_operand(&self, operand: Operand) -> Result<Imm, OperandFault>
        ensures { result ≡ wide_operand operand.kind self.now.instruction.now }
    {
        let imm = Imm::Size8(self.instruction.immediate64());
        operand.expecting(OpKind::Immediate64, imm)
    }

    pub(crate) fn branch_operand(
        &self,
        operand: Operand,
        expected: OpKind,
        size: u8,
    ) -> Result<Branch, OperandFault>
        ensures { result ≡ branch_operand self.now.mode expected size operand.kind self.now.instruction.now }
    {
        let branch = branch_of(self.mode, expected, size, self.instruction);
        operand.expecting(expected, branch)
    }
}
