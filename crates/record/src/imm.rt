ghost use Rattle.std.specs.Prelude.{◌≡◌};
ghost use Rattle.record.specs.Immediates.{imm_after, imm_shape, imm_count};

use super::op::{Op, Operands};

// The immediate operands of a record, taken together. None and a wrong list are cases beside the others, so that one
// match goes on from each.
#[derive(Clone, Copy)]
pub enum ImmShape {
    Nothing,
    Ib,
    IbIb,
    Id,
    Iq,
    // one branch, with the size of its displacement
    J(u8),
    // no list of immediates that an instruction can have
    Wrong,
}

impl ImmShape {
    // with one operand more
    fn after(self, place: Option<Op>) -> ImmShape
        ensures { result ≡ imm_after self place }
    {
        match (self, place) {
            (ImmShape::Nothing, Some(Op::Ib(_))) => ImmShape::Ib,
            (ImmShape::Ib, Some(Op::Ib(_))) => ImmShape::IbIb,
            (ImmShape::Nothing, Some(Op::Id(_))) => ImmShape::Id,
            (ImmShape::Nothing, Some(Op::Iq)) => ImmShape::Iq,
            (ImmShape::Nothing, Some(Op::J(_, size))) => ImmShape::J(size),
            (_, Some(Op::Ib(_) | Op::Id(_) | Op::Iq | Op::J(_, _))) => ImmShape::Wrong,
            _ => self,
        }
    }

    // how many bytes the immediates take
    pub fn count(self) -> u8
        ensures { result ≡ imm_count self }
    {
        match self {
            ImmShape::Nothing | ImmShape::Wrong => 0,
            ImmShape::Ib => 1,
            ImmShape::IbIb => 2,
            ImmShape::Id => 4,
            ImmShape::Iq => 8,
            ImmShape::J(size) => size,
        }
    }
}

impl Operands {
    // the immediate operands taken together
    pub fn immediates(&self) -> ImmShape
        ensures { result ≡ imm_shape self.now }
    {
        self.places()
            .iter()
            .fold(ImmShape::Nothing, |shape, place| shape.after(*place))
    }
}
