// Rule 5: the immediate operands are a list that an instruction can have, and expect kinds that go with them.
ghost use Rattle.std.specs.Prelude.{◌≡◌};
ghost use Rattle.record.specs.Rules.{imm_kind, branch_holds, op_imm_holds, shape_known, immediates_hold, each};

use super::super::imm::ImmShape;
use super::super::op::{Op, Operands};
use super::super::raw::RawRecord;
use machine::OpKind;

fn is_immediate(kind: OpKind) -> bool
    ensures { result ≡ imm_kind kind }
{
    let number = kind as u8;
    OpKind::Immediate8 as u8 <= number && number <= OpKind::Immediate32to64 as u8
}

// a branch over one byte may go to a target of 16, 32 or 64 bits, over two bytes of 16, over four of 32 or 64
fn branch_holds(kind: OpKind, size: u8) -> bool
    ensures { result ≡ branch_holds kind size }
{
    match (size, kind) {
        (1, k)
            if matches!(
                k,
                OpKind::NearBranch16 | OpKind::NearBranch32 | OpKind::NearBranch64
            ) => true,
        (2, OpKind::NearBranch16) => true,
        (4, k) if matches!(k, OpKind::NearBranch32 | OpKind::NearBranch64) => true,
        _ => false,
    }
}

fn immediate_holds(place: Option<Op>) -> bool
    ensures { result ≡ op_imm_holds place }
{
    match place {
        Some(Op::Ib(kind) | Op::Id(kind)) => is_immediate(kind),
        Some(Op::J(kind, size)) => branch_holds(kind, size),
        _ => true,
    }
}

impl Operands {
    fn expect_immediates(&self) -> bool
        ensures { result ≡ each op_imm_holds self.now }
    {
        self.places().iter().all(|place| immediate_holds(*place))
    }
}

impl ImmShape {
    fn known(self) -> bool
        ensures { result ≡ shape_known self }
    {
        !matches!(self, ImmShape::Wrong)
    }
}

impl RawRecord {
    pub(crate) fn immediates_hold(&self) -> bool
        ensures { result ≡ immediates_hold self.now }
    {
        self.operands.immediates().known() && self.operands.expect_immediates()
    }
}
