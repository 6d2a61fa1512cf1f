// Rule 6: operands and the broadcast form belong to the head.
ghost use Rattle.std.specs.Prelude.{◌≡◌};
ghost use Rattle.record.specs.Rules.{op_vector_holds, heads_hold, each};

use super::super::class::Class;
use super::super::flags::Flag;
use super::super::op::{Op, Operands};
use super::super::raw::RawRecord;

fn vector_holds(place: Option<Op>) -> bool
    ensures { result ≡ op_vector_holds place }
{
    match place {
        Some(Op::Vsib(range)) => range.is_vector16() || range.is_vector32(),
        _ => true,
    }
}

impl Operands {
    fn vectors_hold(&self) -> bool
        ensures { result ≡ each op_vector_holds self.now }
    {
        self.places().iter().all(|place| vector_holds(*place))
    }
}

impl RawRecord {
    pub(crate) fn heads_hold(&self) -> bool
        ensures { result ≡ heads_hold self.now }
    {
        let legacy = self.head.is_legacy();
        let evex = self.head.is_evex();
        let hx = self.operands.has(Class::Vvvv);
        let vsib = self.operands.has(Class::Vector);
        let offset = self.operands.has(Class::Offset);
        let broadcast = self.enc_flags3.has(Flag::Broadcast);
        !(legacy && (hx || vsib))
            && !(evex && hx && vsib)
            && !(!legacy && offset)
            && self.operands.vectors_hold()
            && (!broadcast || (evex && self.operands.has(Class::Broadcastable)))
    }
}
