ghost use Rattle.std.specs.Prelude.{◌≡◌, ◌<◌};
ghost use Rattle.machine.specs.Bytes.{byte_code, byte_register, ByteThere, ByteBack};
ghost use Rattle.machine.specs.Registers.{byte_numbered};

use super::register::Register;

// How a register of the 8-bit bank is written: its number, 0 to 15, and whether a REX prefix has to be there (SPL to
// DIL) or may not be (AH to BH). Two flags, as a head collects them apart and refuses where both are met.
#[derive(Clone, Copy)]
pub struct ByteCode {
    pub number: u8,
    pub rex: bool,
    pub high: bool,
}

fn register_number(number: u8, rex: bool) -> u8
    requires { number < 16 }
    ensures { result ≡ byte_register number rex }
{
    if number < 4 || (number < 8 && !rex) {
        number + 1
    } else {
        number + 5
    }
}

impl ByteCode {
    // how a register is written as an 8-bit one, none outside the 8-bit bank
    pub fn of(register: Register) -> Option<ByteCode>
        ensures value { result ≡ byte_code register.number }
        ensures there { ByteThere }
    {
        let n = register.number;
        if n < 1 || n > 20 {
            return None;
        }
        Some(ByteCode {
            number: if n >= 9 { n - 5 } else { n - 1 },
            rex: n >= 9 && n <= 12,
            high: n >= 5 && n <= 8,
        })
    }

    // the 8-bit register that a number stands for, with a REX prefix and without
    pub fn register(number: u8, rex: bool) -> Option<Register>
        ensures value { result ≡ byte_numbered number rex }
        ensures back { ByteBack }
    {
        if number >= 16 {
            return None;
        }
        Register::new(register_number(number, rex))
    }
}
