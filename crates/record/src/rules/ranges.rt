// Rule 2: a range of registers is one whole bank, of those that the head and the operand may have.
ghost use Rattle.std.specs.Prelude.{◌≡◌};
ghost use Rattle.record.specs.Rules.{range_bytes, range_plain, range_vector16, range_vector32, range_holds, op_range_holds, ranges_hold};

use super::super::head::Head;
use super::super::op::{Op, RegisterRange};
use super::super::raw::RawRecord;

impl RegisterRange {
    // the whole 8-bit bank
    fn is_bytes(self) -> bool
        ensures { result ≡ range_bytes self }
    {
        matches!((self.lo, self.hi), (1, 20))
    }

    // a whole bank of general, segment or mask registers
    fn is_plain(self) -> bool
        ensures { result ≡ range_plain self }
    {
        matches!(
            (self.lo, self.hi),
            (21, 36) | (37, 52) | (53, 68) | (71, 76) | (173, 180)
        )
    }

    // the first 16 of a vector bank
    pub(crate) fn is_vector16(self) -> bool
        ensures { result ≡ range_vector16 self }
    {
        matches!((self.lo, self.hi), (77, 92) | (109, 124) | (141, 156))
    }

    // all 32 of a vector bank
    pub(crate) fn is_vector32(self) -> bool
        ensures { result ≡ range_vector32 self }
    {
        matches!((self.lo, self.hi), (77, 108) | (109, 140) | (141, 172))
    }

    fn holds(self, head: &Head, embedded: bool) -> bool
        ensures { result ≡ range_holds head.now embedded self }
    {
        (self.is_bytes() && head.is_legacy())
            || self.is_plain()
            || self.is_vector16()
            || (self.is_vector32() && head.is_evex() && !embedded)
    }
}

fn range_holds(head: &Head, place: Option<Op>) -> bool
    ensures { result ≡ op_range_holds head.now place }
{
    match place {
        Some(Op::ModRmRm(range) | Op::Vsib(range) | Op::ModRmReg(range) | Op::Hx(range)) =>
            range.holds(head, false),
        Some(Op::RegEmbed8(range)) => range.holds(head, true),
        _ => true,
    }
}

impl RawRecord {
    pub(crate) fn ranges_hold(&self) -> bool
        ensures { result ≡ ranges_hold self.now }
    {
        let head = &self.head;
        self.operands
            .places()
            .iter()
            .all(|place| range_holds(head, *place))
    }
}
