// Register operands.
ghost use Rattle.std.specs.Prelude.{◌≡◌};
ghost use Rattle.gather.specs.Registers.{reg_part, ranged_register, is_register, is_memory, register_operand, rm_register};
ghost use Rattle.gather.specs.Steps.{fixed_told};

use super::address::in_range;
use super::case::{Case, Operand};
use super::parts::{Displ, RmPart};
use fault::OperandFault;
use machine::{OpKind, Register};
use policy::Policy;
use record::RegisterRange;

// A register operand: its number in its range, and whether a REX prefix has to be there or may not be, two flags as
// HeadFlags collects them. Not by machine's ByteCode, which tells nothing of numbers above the 8-bit bank.
#[derive(Clone, Copy)]
pub struct RegPart {
    pub number: u8,
    pub rex: bool,
    pub high: bool,
}

impl RegPart {
    fn new(range: RegisterRange, register: Register) -> RegPart
        ensures { result ≡ reg_part range register.number }
    {
        let n = register.number;
        let byte = range.lo == 1;
        let place = n.saturating_sub(range.lo);
        RegPart {
            number: if byte && n >= 9 {
                place.saturating_sub(4)
            } else {
                place
            },
            rex: byte && n >= 9 && n <= 12,
            high: byte && n >= 5 && n <= 8,
        }
    }

    // mod 11, the number cut into rm, B and X
    pub(crate) fn rm(self) -> RmPart
        ensures { result ≡ rm_register self }
    {
        RmPart {
            mode: 3,
            rm: self.number % 8,
            b: self.number / 8 % 2,
            x: self.number / 16,
            v2: 0,
            sib: None,
            displ: Displ::Absent,
        }
    }
}

impl Operand {
    pub(crate) fn is_register(self) -> bool
        ensures { result ≡ is_register self.kind }
    {
        self.kind == OpKind::Register
    }

    pub(crate) fn is_memory(self) -> bool
        ensures { result ≡ is_memory self.kind }
    {
        self.kind == OpKind::Memory
    }

    // one register, which no byte carries
    pub(crate) fn fixed_told(self, wanted: u8) -> Result<(), OperandFault>
        ensures { result ≡ fixed_told wanted self.kind self.register.number }
    {
        if !self.is_register() {
            return Err(OperandFault::OpKind);
        }
        if wanted != self.register.number {
            return Err(OperandFault::FixedRegister);
        }
        Ok(())
    }
}

impl<P: Policy> Case<'_, P> {
    // the register, which has to be one of the range
    pub(crate) fn ranged_register(
        &self,
        operand: Operand,
        range: RegisterRange,
    ) -> Result<RegPart, OperandFault>
        ensures { result ≡ ranged_register self.now.mode range operand.register.number }
    {
        if in_range(self.mode, range, operand.register) {
            Ok(RegPart::new(range, operand.register))
        } else {
            Err(OperandFault::RegisterRange)
        }
    }

    // the operand, which has to be a register of the range
    pub(crate) fn register_operand(
        &self,
        operand: Operand,
        range: RegisterRange,
    ) -> Result<RegPart, OperandFault>
        ensures { result ≡ register_operand self.now.mode range operand.kind operand.register.number }
    {
        if !operand.is_register() {
            return Err(OperandFault::OpKind);
        }
        self.ranged_register(operand, range)
    }
}
