// Memory operands with 16-bit addresses.
ghost use Rattle.std.specs.Prelude.{◌≡◌};
ghost use Rattle.gather.specs.Cases.{meaning};
ghost use Rattle.gather.specs.Memory16.{rm16, offset16, one16, sized16, based16, mem16};

use super::case::Case;
use super::parts::{Displ, RmPart};
use super::refusal::Refusal;
use fault::OperandFault;
use policy::Policy;

// ModRM.rm of a pair of base and index
fn rm16(base: u8, index: u8) -> Option<u8>
    ensures { result ≡ rm16 base index }
{
    match (base, index) {
        (24, 27) => Some(0),
        (24, 28) => Some(1),
        (26, 27) => Some(2),
        (26, 28) => Some(3),
        (27, 0) => Some(4),
        (28, 0) => Some(5),
        (26, 0) => Some(6),
        (24, 0) => Some(7),
        (0, 0) => Some(6),
        _ => None,
    }
}

fn offset16(displ: u64) -> Result<RmPart, Refusal<RmPart>>
    ensures { result ≡ offset16 displ }
{
    let Ok(displ) = u16::try_from(displ) else {
        return Err(Refusal {
            fault: OperandFault::DisplacementU16,
            left: RmPart::plain(0, 6, Displ::Size2(0)),
        });
    };
    Ok(RmPart::plain(0, 6, Displ::Size2(displ)))
}

impl<P: Policy> Case<'_, P> {
    // a displacement asked in one byte: one where some byte stands for it, else two
    fn one16(&self, rm: u8) -> RmPart
        ensures { result ≡ one16 (meaning P.spread self.now) rm self.now.instruction.now.mem_displ }
    {
        let low = (self.instruction.mem_displ % 0x1_0000) as u16;
        match self.shorten(i32::from(low.cast_signed())) {
            Some(v) => RmPart::plain(1, rm, Displ::Size1(v.cast_unsigned())),
            None => RmPart::plain(2, rm, Displ::Size2(low)),
        }
    }

    fn sized16(&self, rm: u8, size: u8) -> Result<RmPart, Refusal<RmPart>>
        ensures { result ≡ sized16 (meaning P.spread self.now) rm self.now.instruction.now.mem_displ size }
    {
        let displ = self.instruction.mem_displ;
        let left = RmPart::plain(0, rm, Displ::Absent);
        match size {
            0 if displ == 0 => Ok(left),
            0 => Err(Refusal {
                fault: OperandFault::DisplacementNotZero,
                left,
            }),
            1 => Ok(self.one16(rm)),
            2 => Ok(RmPart::plain(2, rm, Displ::Size2((displ % 0x1_0000) as u16))),
            _ => Err(Refusal {
                fault: OperandFault::Size16,
                left,
            }),
        }
    }

    fn based16(&self, rm: u8, bp: bool, size: u8) -> Result<RmPart, Refusal<RmPart>>
        ensures { result ≡ based16 (meaning P.spread self.now) rm bp self.now.instruction.now.mem_displ size }
    {
        let displ = self.instruction.mem_displ;
        let left = RmPart::plain(0, rm, Displ::Absent);
        if (0x1_0000..0xFFFF_FFFF_FFFF_8000).contains(&displ) {
            return Err(Refusal {
                fault: OperandFault::Displacement16,
                left,
            });
        }
        if bp && size == 0 {
            if displ != 0 {
                return Err(Refusal {
                    fault: OperandFault::DisplacementNotZero,
                    left,
                });
            }
            return self.sized16(rm, 1);
        }
        self.sized16(rm, size)
    }

    // a memory operand with a 16-bit address
    pub(crate) fn mem16(&self) -> Result<RmPart, Refusal<RmPart>>
        ensures { result ≡ mem16 (meaning P.spread self.now) self.now.mode self.now.instruction.now }
    {
        if self.mode.is64() {
            return Err(Refusal::blank(OperandFault::Address16In64));
        }
        let base = self.instruction.memory.base.number;
        let index = self.instruction.memory.index.number;
        let Some(rm) = rm16(base, index) else {
            return Err(Refusal::blank(OperandFault::Registers16));
        };
        if base == 0 && index == 0 {
            return offset16(self.instruction.mem_displ);
        }
        let bp = base == 26 && index == 0;
        self.based16(rm, bp, self.instruction.memory_displ_size())
    }
}
