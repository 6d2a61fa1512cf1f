// Memory at an absolute offset.
ghost use Rattle.std.specs.Prelude.{◌≡◌};
ghost use Rattle.gather.specs.Absolute.{offset_blank, offset_2, offset_4, offset_8, offset_sized, absolute};

use super::case::{Case, Operand};
use super::parts::Displ;
use super::refusal::Refusal;
use fault::OperandFault;
use machine::{Mode, Scale};
use policy::Policy;

// An offset to be written, and whether it asks for a 67 prefix.
#[derive(Clone, Copy)]
pub struct Offset {
    pub displ: Displ,
    pub p67: bool,
}

impl Refusal<Offset> {
    // refused before anything is set
    fn nothing(fault: OperandFault) -> Refusal<Offset>
        ensures { result ≡ offset_blank fault }
    {
        Refusal {
            fault,
            left: Offset {
                displ: Displ::Absent,
                p67: false,
            },
        }
    }
}

fn offset_2(mode: Mode, displ: u64) -> Result<Offset, Refusal<Offset>>
    ensures { result ≡ offset_2 mode displ }
{
    if mode.is64() {
        return Err(Refusal::nothing(OperandFault::Absolute16In64));
    }
    let p67 = mode == Mode::Bits32;
    let Ok(displ) = u16::try_from(displ) else {
        return Err(Refusal {
            fault: OperandFault::DisplacementU16,
            left: Offset {
                displ: Displ::Size2(0),
                p67,
            },
        });
    };
    Ok(Offset {
        displ: Displ::Size2(displ),
        p67,
    })
}

fn offset_4(mode: Mode, displ: u64) -> Result<Offset, Refusal<Offset>>
    ensures { result ≡ offset_4 mode displ }
{
    let p67 = mode != Mode::Bits32;
    let Ok(displ) = u32::try_from(displ) else {
        return Err(Refusal {
            fault: OperandFault::DisplacementU32,
            left: Offset {
                displ: Displ::Size4(0),
                p67,
            },
        });
    };
    Ok(Offset {
        displ: Displ::Size4(displ),
        p67,
    })
}

fn offset_8(mode: Mode, displ: u64) -> Result<Offset, Refusal<Offset>>
    ensures { result ≡ offset_8 mode displ }
{
    if !mode.is64() {
        return Err(Refusal::nothing(OperandFault::Absolute64Outside64));
    }
    Ok(Offset {
        displ: Displ::Size8(displ),
        p67: false,
    })
}

fn offset_sized(mode: Mode, displ: u64, size: u8) -> Result<Offset, Refusal<Offset>>
    ensures { result ≡ offset_sized mode displ size }
{
    match size {
        2 => offset_2(mode, displ),
        4 => offset_4(mode, displ),
        8 => offset_8(mode, displ),
        _ => Err(Refusal::nothing(OperandFault::AbsoluteSize)),
    }
}

impl<P: Policy> Case<'_, P> {
    // memory without base, index and scale, at an offset of the size stated
    pub(crate) fn absolute(&self, operand: Operand) -> Result<Offset, Refusal<Offset>>
        ensures { result ≡ absolute self.now.mode operand.kind self.now.instruction.now }
    {
        if !operand.is_memory() {
            return Err(Refusal::nothing(OperandFault::OpKind));
        }
        let memory = &self.instruction.memory;
        if memory.base.number != 0 || memory.index.number != 0 {
            return Err(Refusal::nothing(OperandFault::AbsoluteRegisters));
        }
        if memory.scale != Scale::By1 {
            return Err(Refusal::nothing(OperandFault::AbsoluteScale));
        }
        let size = self.instruction.memory_displ_size();
        offset_sized(self.mode, self.instruction.mem_displ, size)
    }
}
