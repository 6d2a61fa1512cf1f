ghost use Rattle.std.specs.Prelude.{◌≡◌};
ghost use Rattle.instruction.specs.Getters.{op_kind_at, op_register_at, displ_bytes, index_factor, low8, low16, low32, imm64};

use super::made::Instruction;
use machine::{OpKind, Place, Register};

// What the source computes from a field, by the source's names. A plain field is read as it is: code_size, prefixes, memory.base,
// memory.index, memory.scale, mem_displ, immediate and evex.
impl Instruction {
    // the kind of the operand at a place; the fifth is always an immediate byte
    pub fn op_kind(&self, place: Place) -> OpKind
        ensures { result ≡ op_kind_at self.now place }
    {
        match place {
            Place::Op0 => self.kinds.op0,
            Place::Op1 => self.kinds.op1,
            Place::Op2 => self.kinds.op2,
            Place::Op3 => self.kinds.op3,
            Place::Op4 => OpKind::Immediate8,
        }
    }

    // the register of the operand at a place; the fifth has none
    pub fn op_register(&self, place: Place) -> Register
        ensures { result.number ≡ op_register_at self.now place }
    {
        match place {
            Place::Op0 => self.registers.op0,
            Place::Op1 => self.registers.op1,
            Place::Op2 => self.registers.op2,
            Place::Op3 => self.registers.op3,
            Place::Op4 => Register { number: 0 },
        }
    }

    // the displacement's size in bytes: 0, 1, 2, 4 or 8
    pub fn memory_displ_size(&self) -> u8
        ensures { result ≡ displ_bytes self.now.memory.displ_size }
    {
        match self.memory.displ_size {
            0 => 0,
            1 => 1,
            2 => 2,
            3 => 4,
            _ => 8,
        }
    }

    // the factor of the index: 1, 2, 4 or 8
    pub fn memory_index_scale(&self) -> u8
        ensures { result ≡ index_factor self.now }
    {
        1 << self.memory.scale as u8
    }

    // the low 32 bits of the displacement
    pub fn memory_displacement32(&self) -> u32
        ensures { result ≡ low32 self.now.mem_displ }
    {
        (self.mem_displ % 0x1_0000_0000) as u32
    }

    // the immediate byte, of the field immediate
    pub fn immediate8(&self) -> u8
        ensures { result ≡ low8 self.now.immediate }
    {
        (self.immediate % 0x100) as u8
    }

    // the second immediate byte, of the field mem_displ
    pub fn immediate8_2nd(&self) -> u8
        ensures { result ≡ low8 self.now.mem_displ }
    {
        (self.mem_displ % 0x100) as u8
    }

    // the 64-bit immediate, of the fields mem_displ and immediate
    pub fn immediate64(&self) -> u64
        ensures { result ≡ imm64 self.now }
    {
        (self.mem_displ % 0x1_0000_0000) * 0x1_0000_0000 + self.immediate as u64
    }

    // a 16-bit branch target, of the field mem_displ
    pub fn near_branch16(&self) -> u16
        ensures { result ≡ low16 self.now.mem_displ }
    {
        (self.mem_displ % 0x1_0000) as u16
    }

    // a 32-bit branch target, of the field mem_displ
    pub fn near_branch32(&self) -> u32
        ensures { result ≡ low32 self.now.mem_displ }
    {
        self.memory_displacement32()
    }
}
