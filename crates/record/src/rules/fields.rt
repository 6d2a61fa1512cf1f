// Rule 1: every field is in its range.
ghost use Rattle.std.specs.Prelude.{◌≡◌};
ghost use Rattle.record.specs.Rules.{group_known, scale_known, legacy_known, vex_known, evex_known, head_known, fixed_known, no_gaps, code_known, groups_known, scales_known, operands_known, fields_hold, each};

use super::super::head::{EvexHead, Head, LegacyHead, VexHead};
use super::super::op::{Op, Operands};
use super::super::raw::RawRecord;

fn group_known(index: i8) -> bool
    ensures { result ≡ group_known index }
{
    -1 <= index && index <= 7
}

fn scale_known(n: u8) -> bool
    ensures { result ≡ scale_known n }
{
    n.count_ones() == 1 && n <= 64
}

impl LegacyHead {
    fn known(&self) -> bool
        ensures { result ≡ legacy_known self.now }
    {
        matches!(self.table_byte1, 0x00 | 0x0F)
            && matches!(self.table_byte2, 0x00 | 0x38 | 0x3A)
            && (self.table_byte2 == 0x00 || self.table_byte1 != 0x00)
            && matches!(self.mandatory_prefix, 0x00 | 0x66 | 0xF3 | 0xF2)
    }
}

impl VexHead {
    // last_byte within 87, mask_w_l within 84, mask_l within 04
    fn known(&self) -> bool
        ensures { result ≡ vex_known self.now }
    {
        1 <= self.table
            && self.table <= 3
            && self.last_byte / 8 % 16 == 0
            && self.w1 == (self.last_byte >= 128)
            && self.mask_w_l % 4 == 0
            && self.mask_w_l / 8 % 16 == 0
            && (self.mask_l == 0 || self.mask_l == 4)
    }
}

impl EvexHead {
    // p1_bits 04 and bits of 83, ll_bits within 60, mask_w within 80
    fn known(&self) -> bool
        ensures { result ≡ evex_known self.now }
    {
        1 <= self.table
            && self.table <= 6
            && self.table != 4
            && self.p1_bits / 4 % 2 == 1
            && self.p1_bits / 8 % 16 == 0
            && self.ll_bits % 32 == 0
            && self.ll_bits < 128
            && (self.mask_w == 0 || self.mask_w == 128)
            && (self.mask_ll == 0 || self.mask_ll == 96)
    }
}

impl Head {
    fn known(&self) -> bool
        ensures { result ≡ head_known self.now }
    {
        match self {
            Head::Legacy(head) => head.known(),
            Head::Vex(head) => head.known(),
            Head::Evex(head) => head.known(),
        }
    }
}

fn fixed_known(place: Option<Op>) -> bool
    ensures { result ≡ fixed_known place }
{
    match place {
        Some(Op::Reg(register)) => register <= 180,
        _ => true,
    }
}

impl Operands {
    // a place is filled only where the one before it is
    fn no_gaps(&self) -> bool
        ensures { result ≡ no_gaps self.now }
    {
        let places = self.places();
        places
            .iter()
            .zip(&places[1..])
            .all(|(before, place)| before.is_some() || place.is_none())
    }

    fn fixed_known(&self) -> bool
        ensures { result ≡ each fixed_known self.now }
    {
        self.places().iter().all(|place| fixed_known(*place))
    }

    fn known(&self) -> bool
        ensures { result ≡ operands_known self.now }
    {
        self.no_gaps() && self.fixed_known()
    }
}

impl RawRecord {
    fn code_known(&self) -> bool
        ensures { result ≡ code_known self.now }
    {
        let limit = if self.is_2byte_opcode { 65536 } else { 256 };
        self.op_code < limit
    }

    fn groups_known(&self) -> bool
        ensures { result ≡ groups_known self.now }
    {
        group_known(self.group_index) && group_known(self.rm_group_index)
    }

    fn scales_known(&self) -> bool
        ensures { result ≡ scales_known self.now }
    {
        scale_known(self.n) && scale_known(self.nb)
    }

    pub(crate) fn fields_hold(&self) -> bool
        ensures { result ≡ fields_hold self.now }
    {
        self.code_known()
            && self.groups_known()
            && self.scales_known()
            && self.head.known()
            && self.operands.known()
    }
}
