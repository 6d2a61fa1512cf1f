ghost use Rattle.std.specs.Prelude.{◌≡◌};
ghost use Rattle.machine.specs.OpKinds.{kind_number, kind_named, kinds};
ghost use Rattle.machine.specs.Look.{look_there};
ghost use Rattle.std.proofs.Common.{rules};

use super::code::Code;

// What an operand of an instruction is, with the source's numbers 0 to 24.
#[derive(Clone, Copy, PartialEq, Eq)]
pub enum OpKind {
    Register,
    NearBranch16,
    NearBranch32,
    NearBranch64,
    FarBranch16,
    FarBranch32,
    Immediate8,
    Immediate8Second,
    Immediate16,
    Immediate32,
    Immediate64,
    Immediate8to16,
    Immediate8to32,
    Immediate8to64,
    Immediate32to64,
    MemorySegSi,
    MemorySegEsi,
    MemorySegRsi,
    MemorySegDi,
    MemorySegEdi,
    MemorySegRdi,
    MemoryEsDi,
    MemoryEsEdi,
    MemoryEsRdi,
    Memory,
}

impl Code for OpKind {
    ghost code = { λ x. kind_number x };

    ghost named = { λ n. kind_named n };

    ghost back = { Prim.search rules };

    ghost there = { look_there kind_number kinds };

    fn number(self) -> u8 {
        self as u8
    }

    fn from_number(number: u8) -> Option<OpKind> {
        match number {
            0 => Some(OpKind::Register),
            1 => Some(OpKind::NearBranch16),
            2 => Some(OpKind::NearBranch32),
            3 => Some(OpKind::NearBranch64),
            4 => Some(OpKind::FarBranch16),
            5 => Some(OpKind::FarBranch32),
            6 => Some(OpKind::Immediate8),
            7 => Some(OpKind::Immediate8Second),
            8 => Some(OpKind::Immediate16),
            9 => Some(OpKind::Immediate32),
            10 => Some(OpKind::Immediate64),
            11 => Some(OpKind::Immediate8to16),
            12 => Some(OpKind::Immediate8to32),
            13 => Some(OpKind::Immediate8to64),
            14 => Some(OpKind::Immediate32to64),
            15 => Some(OpKind::MemorySegSi),
            16 => Some(OpKind::MemorySegEsi),
            17 => Some(OpKind::MemorySegRsi),
            18 => Some(OpKind::MemorySegDi),
            19 => Some(OpKind::MemorySegEdi),
            20 => Some(OpKind::MemorySegRdi),
            21 => Some(OpKind::MemoryEsDi),
            22 => Some(OpKind::MemoryEsEdi),
            23 => Some(OpKind::MemoryEsRdi),
            24 => Some(OpKind::Memory),
            _ => None,
        }
    }
}
