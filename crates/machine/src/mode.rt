ghost use Rattle.std.specs.Prelude.{◌≡◌};
ghost use Rattle.machine.specs.Modes.{mode_number, mode_named, modes, is64, mode_bytes};
ghost use Rattle.machine.specs.Look.{look_there};
ghost use Rattle.std.proofs.Common.{rules};

use super::code::Code;

// The processor's mode, by the bits of its code: 16, 32 or 64.
#[derive(Clone, Copy, PartialEq, Eq)]
pub enum Mode {
    Bits16,
    Bits32,
    Bits64,
}

impl Code for Mode {
    ghost code = { λ x. mode_number x };

    ghost named = { λ n. mode_named n };

    ghost back = { Prim.search rules };

    ghost there = { look_there mode_number modes };

    fn number(self) -> u8 {
        match self {
            Mode::Bits16 => 16,
            Mode::Bits32 => 32,
            Mode::Bits64 => 64,
        }
    }

    fn from_number(number: u8) -> Option<Mode> {
        match number {
            16 => Some(Mode::Bits16),
            32 => Some(Mode::Bits32),
            64 => Some(Mode::Bits64),
            _ => None,
        }
    }
}

impl Mode {
    // whether the code is of 64 bits
    pub fn is64(self) -> bool
        ensures { result ≡ is64 self }
    {
        self == Mode::Bits64
    }

    // the bytes of an address
    pub fn bytes(self) -> u8
        ensures { result ≡ mode_bytes self }
    {
        match self {
            Mode::Bits16 => 2,
            Mode::Bits32 => 4,
            Mode::Bits64 => 8,
        }
    }
}
