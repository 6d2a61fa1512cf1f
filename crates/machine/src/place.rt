ghost use Rattle.std.specs.Prelude.{◌≡◌};
ghost use Rattle.machine.specs.Places.{place_number, place_named, places};
ghost use Rattle.machine.specs.Look.{look_there};
ghost use Rattle.std.proofs.Common.{rules};

use super::code::Code;

// The place of an operand in its instruction: 0 to 4.
#[derive(Clone, Copy, PartialEq, Eq)]
pub enum Place {
    Op0,
    Op1,
    Op2,
    Op3,
    Op4,
}

impl Place {
    // the places in their order
    pub const ALL: [Place; 5] = [Place::Op0, Place::Op1, Place::Op2, Place::Op3, Place::Op4];
}

impl Code for Place {
    ghost code = { λ x. place_number x };

    ghost named = { λ n. place_named n };

    ghost back = { Prim.search rules };

    ghost there = { look_there place_number places };

    fn number(self) -> u8 {
        self as u8
    }

    fn from_number(number: u8) -> Option<Place> {
        match number {
            0 => Some(Place::Op0),
            1 => Some(Place::Op1),
            2 => Some(Place::Op2),
            3 => Some(Place::Op3),
            4 => Some(Place::Op4),
            _ => None,
        }
    }
}
