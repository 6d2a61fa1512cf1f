ghost use Rattle.std.specs.Prelude.{◌≡◌};
ghost use Rattle.record.specs.Classes.{belongs, belongs_at, class_count, has_class};

use super::op::{Op, Operands};

// What the rules ask of an operand. An enum, and no closure, as the rules and the encoder ask by the same names.
#[derive(Clone, Copy)]
pub enum Class {
    // takes ModRM.rm, the memory address or the opcode's register
    RmSlot,
    // may be memory under ModRM
    Memory,
    // may be memory that the broadcast flag speaks of
    Broadcastable,
    // memory with a vector index
    Vector,
    // memory at an absolute offset
    Offset,
    // takes the opcode's low three bits
    Embedded,
    // takes ModRM.reg
    RegSlot,
    // takes vvvv
    Vvvv,
}

impl Op {
    // whether the operand is of the class
    pub fn belongs(self, class: Class) -> bool
        ensures { result ≡ belongs class self }
    {
        match class {
            Class::RmSlot => matches!(
                self,
                Op::ModRmRm(_) | Op::ModRmRmMemOnly(_) | Op::Vsib(_) | Op::O | Op::RegEmbed8(_)
            ),
            Class::Memory => matches!(self, Op::ModRmRm(_) | Op::ModRmRmMemOnly(_) | Op::Vsib(_)),
            Class::Broadcastable => matches!(self, Op::ModRmRm(_) | Op::ModRmRmMemOnly(_)),
            Class::Vector => matches!(self, Op::Vsib(_)),
            Class::Offset => matches!(self, Op::O),
            Class::Embedded => matches!(self, Op::RegEmbed8(_)),
            Class::RegSlot => matches!(self, Op::ModRmReg(_)),
            Class::Vvvv => matches!(self, Op::Hx(_)),
        }
    }
}

fn belongs_at(place: Option<Op>, class: Class) -> bool
    ensures { result ≡ belongs_at class place }
{
    place.is_some_and(|op| op.belongs(class))
}

impl Operands {
    // how many operands are of the class
    pub fn count(&self, class: Class) -> u8
        ensures { result ≡ class_count class self.now }
    {
        let places = self.places();
        let owners = places.iter().filter(|place| belongs_at(**place, class));
        owners.count() as u8
    }

    // whether some operand is of the class
    pub fn has(&self, class: Class) -> bool
        ensures { result ≡ has_class class self.now }
    {
        self.places().iter().any(|place| belongs_at(*place, class))
    }
}
