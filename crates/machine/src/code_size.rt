ghost use Rattle.std.specs.Prelude.{◌≡◌};
ghost use Rattle.machine.specs.CodeSizes.{size_number, size_named, sizes};
ghost use Rattle.machine.specs.Look.{look_there};
ghost use Rattle.std.proofs.Common.{rules};

use super::code::Code;

// A width of code, addresses or operands, or none stated: 0 to 3. None is a case, as the source numbers it.
#[derive(Clone, Copy, PartialEq, Eq)]
pub enum CodeSize {
    Unknown,
    Code16,
    Code32,
    Code64,
}

impl Code for CodeSize {
    ghost code = { λ x. size_number x };

    ghost named = { λ n. size_named n };

    ghost back = { Prim.search rules };

    ghost there = { look_there size_number sizes };

    fn number(self) -> u8 {
        self as u8
    }

    fn from_number(number: u8) -> Option<CodeSize> {
        match number {
            0 => Some(CodeSize::Unknown),
            1 => Some(CodeSize::Code16),
            2 => Some(CodeSize::Code32),
            3 => Some(CodeSize::Code64),
            _ => None,
        }
    }
}
