// Memory operands with 32-bit and 64-bit addresses.
ghost use Rattle.std.specs.Prelude.{◌≡◌};
ghost use Rattle.machine.specs.Scales.{scale_number};
ghost use Rattle.gather.specs.Cases.{meaning};
ghost use Rattle.gather.specs.Memory.{address_bank, is_rip, index_bank, base_allowed, index_allowed, mem_checked, rip_part, rip_mem, displ_checked, offset_mem, sized_out, displ_out, out_mode, out_displ, bank_number, low3_or, bit3, bit4, wants_sib, address_part, stack_left, address_of, based_mem, mem};

use super::address::in_range;
use super::case::{Case, MemoryForm};
use super::parts::{Displ, RmPart};
use super::refusal::Refusal;
use fault::OperandFault;
use instruction::Instruction;
use machine::{Scale, Sib};
use policy::Policy;
use record::RegisterRange;

// How a displacement goes out: not at all, in one byte, whole, or in a size that the address does not have, which is
// no refusal yet, as the rest of the operand still decides what it leaves.
#[derive(Clone, Copy)]
pub enum Out {
    Nothing,
    Byte(i8),
    Full,
    Wrong,
}

// The address of an operand with base or index: their numbers in their banks, whether the index is ESP or RSP, scale,
// displacement, and the displacement's size in bytes.
#[derive(Clone, Copy)]
pub struct Address {
    pub base: Option<u8>,
    pub index: Option<u8>,
    pub stack: bool,
    pub scale: u8,
    pub displ: u64,
    pub size: u8,
}

fn address_bank(bytes: u8) -> RegisterRange
    ensures { result ≡ address_bank bytes }
{
    if bytes == 8 {
        RegisterRange { lo: 53, hi: 68 }
    } else {
        RegisterRange { lo: 37, hi: 52 }
    }
}

fn index_bank(bytes: u8, vsib: Option<RegisterRange>) -> RegisterRange
    ensures { result ≡ index_bank bytes vsib }
{
    vsib.unwrap_or(address_bank(bytes))
}

// RIP and EIP, by number as the definitions have registers and the bytes of an address
fn is_rip(number: u8) -> bool
    ensures { result ≡ is_rip number }
{
    number == 69 || number == 70
}

fn rip_part(base: u8, target: u64) -> Result<RmPart, Refusal<RmPart>>
    ensures { result ≡ rip_part base target }
{
    if base == 70 {
        return Ok(RmPart::plain(0, 5, Displ::RipRelSize4Target64(target)));
    }
    let Ok(target) = u32::try_from(target) else {
        let left = RmPart::plain(0, 5, Displ::RipRelSize4Target32(0));
        return Err(Refusal {
            fault: OperandFault::EipTarget,
            left,
        });
    };
    Ok(RmPart::plain(0, 5, Displ::RipRelSize4Target32(target)))
}

#[tactic(auto, unfolding(crate::specs::Memory::displ_checked))]
fn displ_checked(bytes: u8, displ: u64) -> Result<(), Refusal<RmPart>>
    ensures { result ≡ displ_checked bytes displ }
{
    let (first, fault) = if bytes == 8 {
        (0x8000_0000, OperandFault::DisplacementI32)
    } else {
        (0x1_0000_0000, OperandFault::Displacement32)
    };
    if (first..0xFFFF_FFFF_8000_0000).contains(&displ) {
        return Err(Refusal::blank(fault));
    }
    Ok(())
}

impl Out {
    fn mode(self, base: Option<u8>) -> u8
        ensures { result ≡ out_mode base self }
    {
        match (self, base) {
            (Out::Byte(_), _) => 1,
            (Out::Full, Some(_)) => 2,
            _ => 0,
        }
    }

    fn displ(self, displ: u64) -> Displ
        ensures { result ≡ out_displ displ self }
    {
        match self {
            Out::Nothing | Out::Wrong => Displ::Absent,
            Out::Byte(v) => Displ::Size1(v.cast_unsigned()),
            Out::Full => Displ::Size4((displ % 0x1_0000_0000) as u32),
        }
    }
}

// the number of a register in its bank, none where there is none
fn bank_number(range: RegisterRange, number: u8) -> Option<u8>
    ensures { result ≡ bank_number range number }
{
    (number != 0).then_some(number.saturating_sub(range.lo))
}

fn low3_or(otherwise: u8, number: Option<u8>) -> u8
    ensures { result ≡ low3_or otherwise number }
{
    number.map_or(otherwise, |n| n % 8)
}

fn bit3(number: Option<u8>) -> u8
    ensures { result ≡ bit3 number }
{
    number.map_or(0, |n| n / 8 % 2)
}

fn bit4(number: Option<u8>) -> u8
    ensures { result ≡ bit4 number }
{
    number.map_or(0, |n| n / 16)
}

impl Address {
    #[tactic(auto, unfolding(crate::specs::Memory::address_of))]
    fn new(bytes: u8, vsib: Option<RegisterRange>, instruction: &Instruction) -> Address
        ensures { result ≡ address_of bytes vsib instruction.now }
    {
        let number = instruction.memory.index.number;
        Address {
            base: bank_number(address_bank(bytes), instruction.memory.base.number),
            index: bank_number(index_bank(bytes, vsib), number),
            // ESP and RSP, by number as the definitions have registers
            stack: number == 41 || number == 57,
            scale: instruction.memory.scale as u8,
            displ: instruction.mem_displ,
            size: instruction.memory_displ_size(),
        }
    }

    fn wants_sib(&self, must_use_sib: bool) -> bool
        ensures { result ≡ wants_sib must_use_sib self.now.base self.now.index self.now.scale }
    {
        self.index.is_some() || low3_or(4, self.base) == 4 || self.scale != 0 || must_use_sib
    }

    // the parts of base and index, with the displacement that goes out
    fn part(&self, must_use_sib: bool, out: Out) -> RmPart
        ensures { result ≡ address_part must_use_sib self.now.base self.now.index self.now.scale self.now.displ out }
    {
        let mode = out.mode(self.base);
        let displ = out.displ(self.displ);
        let b = bit3(self.base);
        if !self.wants_sib(must_use_sib) {
            return RmPart {
                b,
                ..RmPart::plain(mode, low3_or(0, self.base), displ)
            };
        }
        RmPart {
            b,
            x: bit3(self.index),
            v2: bit4(self.index),
            sib: Some(Sib {
                scale: self.scale,
                index: low3_or(4, self.index),
                base: low3_or(5, self.base),
            }),
            ..RmPart::plain(mode, 4, displ)
        }
    }

    // what ESP or RSP as index leaves
    fn stack_left(&self, out: Out) -> RmPart
        ensures { result ≡ stack_left self.now.base self.now.scale self.now.displ out }
    {
        RmPart {
            sib: Some(Sib {
                scale: self.scale,
                index: 0,
                base: 0,
            }),
            ..RmPart::plain(out.mode(self.base), 4, out.displ(self.displ))
        }
    }
}

impl<P: Policy> Case<'_, P> {
    fn base_allowed(&self, bytes: u8) -> bool
        ensures { result ≡ base_allowed self.now.mode bytes self.now.instruction.now.memory.base.number }
    {
        let base = self.instruction.memory.base;
        base.number == 0 || is_rip(base.number) || in_range(self.mode, address_bank(bytes), base)
    }

    fn index_allowed(&self, bytes: u8, vsib: Option<RegisterRange>) -> bool
        ensures { result ≡ index_allowed self.now.mode bytes vsib self.now.instruction.now.memory.index.number }
    {
        let index = self.instruction.memory.index;
        index.number == 0 || in_range(self.mode, index_bank(bytes, vsib), index)
    }

    #[tactic(auto, unfolding(crate::specs::Memory::mem_checked))]
    fn mem_checked(&self, bytes: u8, vsib: Option<RegisterRange>) -> Result<(), Refusal<RmPart>>
        ensures { result ≡ mem_checked self.now.mode bytes vsib self.now.instruction.now }
    {
        if !self.mode.is64() && bytes == 8 {
            return Err(Refusal::blank(OperandFault::Address64Outside64));
        }
        if !self.base_allowed(bytes) || !self.index_allowed(bytes, vsib) {
            return Err(Refusal::blank(OperandFault::RegisterRange));
        }
        if self.instruction.memory_displ_size() == 2 {
            return Err(Refusal::blank(OperandFault::Size));
        }
        Ok(())
    }

    // an address that counts from the next instruction
    #[tactic(auto, unfolding(crate::specs::Memory::rip_mem))]
    fn rip_mem(&self, must_use_sib: bool) -> Result<RmPart, Refusal<RmPart>>
        ensures { result ≡ rip_mem self.now.mode must_use_sib self.now.instruction.now }
    {
        let memory = &self.instruction.memory;
        if memory.index.number != 0 {
            return Err(Refusal::blank(OperandFault::RipIndex));
        }
        if memory.scale != Scale::By1 {
            return Err(Refusal::blank(OperandFault::RipScale));
        }
        if !self.mode.is64() {
            return Err(Refusal::blank(OperandFault::RipOutside64));
        }
        if must_use_sib {
            return Err(Refusal::blank(OperandFault::RipWithSib));
        }
        rip_part(memory.base.number, self.instruction.mem_displ)
    }

    // neither base nor index
    #[tactic(auto, unfolding(crate::specs::Memory::offset_mem))]
    fn offset_mem(&self, form: MemoryForm) -> Result<RmPart, Refusal<RmPart>>
        ensures { result ≡ offset_mem self.now.mode form.must_use_sib form.vsib (scale_number self.now.instruction.now.memory.scale) self.now.instruction.now.mem_displ }
    {
        if form.vsib.is_some() {
            return Err(Refusal::blank(OperandFault::VsibOffsetOnly));
        }
        let scale = self.instruction.memory.scale as u8;
        let displ = Displ::Size4(self.instruction.memory_displacement32());
        if self.mode.is64() || scale != 0 || form.must_use_sib {
            let sib = Sib {
                scale,
                index: 4,
                base: 5,
            };
            return Ok(RmPart {
                sib: Some(sib),
                ..RmPart::plain(0, 4, displ)
            });
        }
        Ok(RmPart::plain(0, 5, displ))
    }

    // how the displacement goes out in a size
    fn sized_out(&self, bytes: u8, size: u8) -> Result<Out, Refusal<RmPart>>
        ensures { result ≡ sized_out (meaning P.spread self.now) bytes self.now.instruction.now.mem_displ size }
    {
        match size {
            1 => {
                let low = self.instruction.memory_displacement32().cast_signed();
                Ok(self.shorten(low).map_or(Out::Full, Out::Byte))
            }
            _ if size == bytes => Ok(Out::Full),
            0 if self.instruction.mem_displ == 0 => Ok(Out::Nothing),
            0 => Err(Refusal::blank(OperandFault::DisplacementNotZero)),
            _ => Ok(Out::Wrong),
        }
    }

    // how the displacement goes out over a base of this number in its bank
    fn displ_out(&self, bytes: u8, a: &Address) -> Result<Out, Refusal<RmPart>>
        ensures { result ≡ displ_out (meaning P.spread self.now) bytes a.now.base self.now.instruction.now.mem_displ a.now.size }
    {
        let Some(base) = a.base else {
            return Ok(Out::Full);
        };
        if a.size == 0 && base % 8 == 5 {
            if self.instruction.mem_displ != 0 {
                return Err(Refusal::blank(OperandFault::DisplacementNotZero));
            }
            return self.sized_out(bytes, 1);
        }
        self.sized_out(bytes, a.size)
    }

    // base or index
    #[tactic(auto, unfolding(crate::specs::Memory::based_mem, crate::specs::Memory::address_of))]
    fn based_mem(&self, bytes: u8, form: MemoryForm) -> Result<RmPart, Refusal<RmPart>>
        ensures { result ≡ based_mem (meaning P.spread self.now) bytes form.must_use_sib (address_of bytes form.vsib self.now.instruction.now) }
    {
        let a = Address::new(bytes, form.vsib, self.instruction);
        let out = self.displ_out(bytes, &a)?;
        let part = if a.stack {
            a.stack_left(out)
        } else {
            a.part(form.must_use_sib, out)
        };
        match out {
            Out::Wrong => Err(Refusal {
                fault: OperandFault::SizeOfAddress,
                left: part,
            }),
            _ if a.stack => Err(Refusal {
                fault: OperandFault::StackPointerIndex,
                left: part,
            }),
            _ => Ok(part),
        }
    }

    // a memory operand with an address of 4 or 8 bytes
    #[tactic(auto, unfolding(crate::specs::Memory::mem, crate::specs::Memory::ranged_mem, crate::specs::Memory::is_bare))]
    pub(crate) fn mem(&self, bytes: u8, form: MemoryForm) -> Result<RmPart, Refusal<RmPart>>
        ensures { result ≡ mem (meaning P.spread self.now) self.now.mode bytes form.must_use_sib form.vsib self.now.instruction.now }
    {
        self.mem_checked(bytes, form.vsib)?;
        let memory = &self.instruction.memory;
        if is_rip(memory.base.number) {
            return self.rip_mem(form.must_use_sib);
        }
        displ_checked(bytes, self.instruction.mem_displ)?;
        if memory.base.number == 0 && memory.index.number == 0 {
            return self.offset_mem(form);
        }
        self.based_mem(bytes, form)
    }
}
