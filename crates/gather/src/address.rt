ghost use Rattle.std.specs.Prelude.{◌≡◌, ◌≤◌};
ghost use Rattle.gather.specs.Address.{code_bytes, register_bytes, joined_bytes, address_chosen, address_bytes, in_range};

use instruction::Instruction;
use machine::{CodeSize, Mode, Register};
use record::RegisterRange;

fn code_bytes(mode: Mode, size: CodeSize) -> u8
    ensures { result ≡ code_bytes mode size }
{
    match size {
        CodeSize::Unknown => mode.bytes(),
        CodeSize::Code16 => 2,
        CodeSize::Code32 => 4,
        CodeSize::Code64 => 8,
    }
}

// the bytes of an address that a register is part of, 0 where it tells nothing; no Option, as two of them are added
fn register_bytes(register: Register) -> u8
    ensures value { result ≡ register_bytes register.number }
    ensures bound { result ≤ 8 }
{
    match register.number {
        21..=36 => 2,
        37..=52 | 69 => 4,
        53..=68 | 70 => 8,
        _ => 0,
    }
}

fn joined_bytes(a: u8, b: u8) -> u8
    requires { (a ≤ 8) × (b ≤ 8) }
    ensures { result ≡ joined_bytes a b }
{
    if a == b { a } else { a + b }
}

fn address_chosen(registers: u8, displ: u8, code: u8) -> u8
    ensures { result ≡ address_chosen registers displ code }
{
    if registers != 0 {
        return registers;
    }
    if displ >= 2 { displ } else { code }
}

// the bytes of a memory operand's address: by its registers, else by the displacement's size, else by the code size
#[tactic(auto, unfolding(crate::specs::Address::address_bytes))]
pub(crate) fn address_bytes(mode: Mode, instruction: &Instruction) -> u8
    ensures { result ≡ address_bytes mode instruction.now }
{
    let base = register_bytes(instruction.memory.base);
    let index = register_bytes(instruction.memory.index);
    let displ = instruction.memory_displ_size();
    let code = code_bytes(mode, instruction.code_size);
    address_chosen(joined_bytes(base, index), displ, code)
}

// whether a mode allows a register of a range: outside mode 64 only the first eight
pub(crate) fn in_range(mode: Mode, range: RegisterRange, register: Register) -> bool
    ensures { result ≡ in_range mode range register.number }
{
    let last = if mode.is64() {
        range.hi
    } else {
        range.hi.min(range.lo.saturating_add(7))
    };
    (range.lo..=last).contains(&register.number)
}
