ghost use Rattle.std.specs.Prelude.{◌≡◌};
ghost use Rattle.machine.specs.Opmasks.{opmask_number, opmask_named, opmasks};
ghost use Rattle.machine.specs.Look.{look_there};
ghost use Rattle.std.proofs.Common.{rules};

use super::code::Code;

// The mask register that an instruction works under, or none: 0 to 7. None is a case, as the source numbers it.
#[derive(Clone, Copy, PartialEq, Eq)]
pub enum Opmask {
    Unmasked,
    K1,
    K2,
    K3,
    K4,
    K5,
    K6,
    K7,
}

impl Code for Opmask {
    ghost code = { λ x. opmask_number x };

    ghost named = { λ n. opmask_named n };

    ghost back = { Prim.search rules };

    ghost there = { look_there opmask_number opmasks };

    fn number(self) -> u8 {
        self as u8
    }

    fn from_number(number: u8) -> Option<Opmask> {
        match number {
            0 => Some(Opmask::Unmasked),
            1 => Some(Opmask::K1),
            2 => Some(Opmask::K2),
            3 => Some(Opmask::K3),
            4 => Some(Opmask::K4),
            5 => Some(Opmask::K5),
            6 => Some(Opmask::K6),
            7 => Some(Opmask::K7),
            _ => None,
        }
    }
}
