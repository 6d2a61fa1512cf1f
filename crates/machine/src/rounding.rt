ghost use Rattle.std.specs.Prelude.{◌≡◌};
ghost use Rattle.machine.specs.Roundings.{rounding_number, rounding_named, roundings};
ghost use Rattle.machine.specs.Look.{look_there};
ghost use Rattle.std.proofs.Common.{rules};

use super::code::Code;

// Rounding stated by an instruction, or none: 0 to 4. None is a case, as the source numbers it.
#[derive(Clone, Copy, PartialEq, Eq)]
pub enum RoundingControl {
    Unstated,
    ToNearest,
    Down,
    Up,
    TowardZero,
}

impl Code for RoundingControl {
    ghost code = { λ x. rounding_number x };

    ghost named = { λ n. rounding_named n };

    ghost back = { Prim.search rules };

    ghost there = { look_there rounding_number roundings };

    fn number(self) -> u8 {
        self as u8
    }

    fn from_number(number: u8) -> Option<RoundingControl> {
        match number {
            0 => Some(RoundingControl::Unstated),
            1 => Some(RoundingControl::ToNearest),
            2 => Some(RoundingControl::Down),
            3 => Some(RoundingControl::Up),
            4 => Some(RoundingControl::TowardZero),
            _ => None,
        }
    }
}
