ghost use Rattle.std.specs.Prelude.{◌≡◌};
ghost use Rattle.machine.specs.Scales.{scale_number, scale_named, scales};
ghost use Rattle.machine.specs.Look.{look_there};
ghost use Rattle.std.proofs.Common.{rules};

use super::code::Code;

// The factor of a memory operand's index, by its power of two: 0 to 3.
#[derive(Clone, Copy, PartialEq, Eq)]
pub enum Scale {
    By1,
    By2,
    By4,
    By8,
}

impl Code for Scale {
    ghost code = { λ x. scale_number x };

    ghost named = { λ n. scale_named n };

    ghost back = { Prim.search rules };

    ghost there = { look_there scale_number scales };

    fn number(self) -> u8 {
        self as u8
    }

    fn from_number(number: u8) -> Option<Scale> {
        match number {
            0 => Some(Scale::By1),
            1 => Some(Scale::By2),
            2 => Some(Scale::By4),
            3 => Some(Scale::By8),
            _ => None,
        }
    }
}
