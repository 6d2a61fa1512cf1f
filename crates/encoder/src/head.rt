// Prefixes and heads: what stands before the opcode.
ghost use Rattle.std.specs.Prelude.{◌≡◌, ◌+◌, ◌<◌, ◌≤◌, ◌++◌, is_some};
ghost use Rattle.encoder.specs.Lines.{used, opt};
ghost use Rattle.encoder.specs.Heads.{segment_byte, or_setting, prefixes_onto, repe_stands, rex_byte, has_rex, legacy_onto, vex_long, inverted_r, inverted_rxb, inverted_vvvv, vex_low, vex_byte1, vex_byte2, vex_byte, vex_onto, v2_bit, ll_bits, evex_byte1, evex_byte2, evex_byte3, evex_onto, unless_allowed, evex_fault};
ghost use Rattle.encoder.specs.Encode.{head_bytes, head_fault};

use super::gathered::Gathered;
use super::line::Line;
use fault::EncodingFault;
use machine::{Opmask, RoundingControl, Segment};
use record::{EvexHead, Flag, Head, LegacyHead, VexHead};

// a bit of the record, or of the settings where the instruction ignores it
fn or_setting(set: bool, ignored: bool, setting: bool) -> u8
    ensures value { result ≡ or_setting set ignored setting }
    ensures bound { result ≤ 1 }
{
    (set || (ignored && setting)) as u8
}

// the refusal of what is asked and not allowed
fn unless_allowed(asked: bool, allowed: bool, fault: EncodingFault) -> Option<EncodingFault>
    ensures { result ≡ unless_allowed asked allowed fault }
{
    (asked && !allowed).then_some(fault)
}

impl Gathered<'_> {
    // a REPE prefix may stand: not where it is the head's mandatory byte
    fn repe_stands(&self) -> bool
        ensures { result ≡ repe_stands self.now.record.now.raw.head }
    {
        match &self.record.raw.head {
            Head::Legacy(head) => head.mandatory_prefix != 0xF3,
            Head::Vex(_) | Head::Evex(_) => true,
        }
    }

    fn rex_byte(&self) -> u8
        ensures { result ≡ rex_byte self.now.parts }
    {
        let parts = &self.parts;
        64 + 8 * parts.flags.w as u8
            + 4 * (parts.reg / 8 % 2)
            + 2 * (parts.rm.x % 2)
            + parts.rm.b % 2
    }

    // whether REX is there: one of its bits is set, or a register asks for it
    fn has_rex(&self) -> bool
        ensures { result ≡ has_rex self.now.parts }
    {
        self.parts.flags.rex || self.rex_byte() != 64
    }

    // the three-byte form is needed
    fn vex_long(&self, head: &VexHead) -> bool
        ensures { result ≡ vex_long self.now.settings head.now self.now.parts }
    {
        let parts = &self.parts;
        (self.settings.prevent_vex2 || head.w1)
            || ((head.table != 1 || parts.flags.w) || (parts.rm.x % 2 == 1 || parts.rm.b % 2 == 1))
    }

    // R inverted, at the top of a byte
    fn inverted_r(&self) -> u8
        ensures value { result ≡ inverted_r self.now.parts }
        ensures bound { result ≤ 128 }
    {
        128 * (1 - self.parts.reg / 8 % 2)
    }

    // R, X and B inverted, at the top of a byte
    fn inverted_rxb(&self) -> u8
        ensures value { result ≡ inverted_rxb self.now.parts }
        ensures bound { result ≤ 224 }
    {
        let rm = &self.parts.rm;
        self.inverted_r() + 64 * (1 - rm.x % 2) + 32 * (1 - rm.b % 2)
    }

    fn inverted_vvvv(&self) -> u8
        ensures { result ≡ inverted_vvvv self.now.parts }
    {
        8 * (15 - self.parts.vvvv % 16)
    }

    fn vex_byte1(&self, head: &VexHead) -> u8
        ensures { result ≡ vex_byte1 head.now self.now.parts }
    {
        self.inverted_rxb() + head.table % 32
    }

    // vvvv, L under a mask and the mandatory prefix
    fn vex_low(&self, head: &VexHead, mask: u8) -> u8
        ensures value { result ≡ vex_low self.now.settings head.now mask self.now.parts }
        ensures bound { result < 128 }
    {
        let l = or_setting(
            head.last_byte / 4 % 2 == 1,
            mask / 4 % 2 == 1,
            self.settings.vex_lig,
        );
        self.inverted_vvvv() + 4 * l + head.last_byte % 4
    }

    fn vex_byte2(&self, head: &VexHead) -> u8
        ensures { result ≡ vex_byte2 self.now.settings head.now self.now.parts }
    {
        let w = or_setting(
            head.last_byte >= 128,
            head.mask_w_l >= 128,
            self.settings.vex_wig,
        );
        128 * w + self.vex_low(head, head.mask_w_l)
    }

    fn vex_byte(&self, head: &VexHead) -> u8
        ensures { result ≡ vex_byte self.now.settings head.now self.now.parts }
    {
        self.inverted_r() + self.vex_low(head, head.mask_l)
    }

    // V' of vvvv or of a vector index
    fn v2_bit(&self) -> u8
        ensures value { result ≡ v2_bit self.now.parts }
        ensures bound { result ≤ 1 }
    {
        (self.parts.vvvv / 16 % 2 == 1 || self.parts.rm.v2 % 2 == 1) as u8
    }

    // the two L bits: of rounding, else of the record
    fn ll_bits(&self, head: &EvexHead) -> u8
        ensures { result ≡ ll_bits self.now.record.now.raw.enc_flags3 head.now self.now.instruction.now.evex }
    {
        let flags = self.record.raw.enc_flags3;
        let evex = &self.instruction.evex;
        match evex.rounding {
            RoundingControl::ToNearest => 0,
            RoundingControl::Down => 1,
            RoundingControl::Up => 2,
            RoundingControl::TowardZero => 3,
            RoundingControl::Unstated => {
                if flags.has(Flag::SuppressAllExceptions) && evex.sae {
                    0
                } else {
                    head.ll_bits / 32 % 4
                }
            }
        }
    }

    fn evex_byte1(&self, head: &EvexHead) -> u8
        ensures { result ≡ evex_byte1 head.now self.now.parts }
    {
        self.inverted_rxb() + 16 * (1 - self.parts.reg / 16 % 2) + head.table % 16
    }

    fn evex_byte2(&self, head: &EvexHead) -> u8
        ensures { result ≡ evex_byte2 self.now.settings head.now self.now.parts }
    {
        let w = or_setting(
            head.p1_bits >= 128,
            head.mask_w >= 128,
            self.settings.evex_wig,
        );
        128 * w + self.inverted_vvvv() + 4 + head.p1_bits % 4
    }

    fn evex_byte3(&self, head: &EvexHead) -> u8
        ensures { result ≡ evex_byte3 self.now.settings self.now.record.now.raw.enc_flags3 head.now self.now.parts self.now.instruction.now.evex }
    {
        let evex = &self.instruction.evex;
        let lig = &self.settings.evex_lig;
        let ll = self.ll_bits(head);
        let ignored = head.mask_ll == 96;
        let b = self.parts.flags.broadcast || (evex.sae || self.rounds());
        let upper = 128 * evex.zeroing as u8
            + 64 * or_setting(ll / 2 % 2 == 1, ignored, lig.high)
            + 32 * or_setting(ll % 2 == 1, ignored, lig.low);
        upper + 16 * b as u8 + 8 * (1 - self.v2_bit()) + evex.opmask as u8
    }

    // what an EVEX instruction asks and its record does not allow, in order
    fn evex_fault(&self) -> Option<EncodingFault>
        ensures { result ≡ evex_fault self.now.record.now.raw.enc_flags3 self.now.parts.flags.broadcast self.now.instruction.now.evex }
    {
        let flags = self.record.raw.enc_flags3;
        let evex = &self.instruction.evex;
        let masked = evex.opmask != Opmask::Unmasked;
        unless_allowed(
            masked,
            flags.has(Flag::OpMaskRegister),
            EncodingFault::OpmaskNotAllowed,
        )
        .or(unless_allowed(
            flags.has(Flag::RequireOpMaskRegister),
            masked,
            EncodingFault::OpmaskRequired,
        ))
        .or(unless_allowed(
            evex.sae,
            flags.has(Flag::SuppressAllExceptions),
            EncodingFault::SaeNotAllowed,
        ))
        .or(unless_allowed(
            self.rounds(),
            flags.has(Flag::RoundingControl),
            EncodingFault::RoundingNotAllowed,
        ))
        .or(unless_allowed(
            evex.broadcast,
            self.parts.flags.broadcast,
            EncodingFault::BroadcastNotAllowed,
        ))
        .or(unless_allowed(
            evex.zeroing,
            flags.has(Flag::ZeroingMasking),
            EncodingFault::ZeroingNotAllowed,
        ))
    }

    // what the head does not allow: AH to BH beside a REX prefix, and what EVEX is asked
    #[tactic(auto, unfolding(crate::specs::Encode::head_fault))]
    pub(crate) fn head_fault(&self) -> Option<EncodingFault>
        ensures { result ≡ head_fault self.now.record.now.raw self.now.parts self.now.instruction.now }
    {
        match &self.record.raw.head {
            Head::Legacy(_) => {
                (self.has_rex() && self.parts.flags.high).then_some(EncodingFault::HighByteWithRex)
            }
            Head::Vex(_) => None,
            Head::Evex(_) => self.evex_fault(),
        }
    }
}

impl Line {
    fn push_segment(&mut self, segment: Option<Segment>)
        requires { self.old.count ≤ 1 }
        ensures bytes { used self.new ≡ used self.old ++ opt (is_some segment) (segment_byte segment) }
        ensures count { self.new.count ≤ self.old.count + 1 }
    {
        if let Some(segment) = segment {
            self.push(segment.prefix());
        }
    }

    // segment, LOCK, operand size, address size, REPE where it may stand, REPNE
    #[tactic(auto, unfolding(crate::specs::Heads::prefixes_onto))]
    fn push_prefixes(&mut self, gathered: &Gathered)
        requires { self.old.count ≤ 1 }
        ensures bytes { used self.new ≡ prefixes_onto (used self.old) gathered.now.parts.flags gathered.now.instruction.now.prefixes (repe_stands gathered.now.record.now.raw.head) }
        ensures count { self.new.count ≤ self.old.count + 6 }
    {
        let flags = &gathered.parts.flags;
        let prefixes = &gathered.instruction.prefixes;
        self.push_segment(prefixes.segment);
        self.push_if(prefixes.lock, 0xF0);
        self.push_if(flags.p66, 0x66);
        self.push_if(flags.p67, 0x67);
        self.push_if(gathered.repe_stands() && prefixes.repe, 0xF3);
        self.push_if(prefixes.repne, 0xF2);
    }

    // mandatory byte, REX, table bytes
    #[tactic(auto, unfolding(crate::specs::Heads::legacy_onto))]
    fn push_legacy(&mut self, head: &LegacyHead, gathered: &Gathered)
        requires { self.old.count ≤ 7 }
        ensures bytes { used self.new ≡ legacy_onto (used self.old) head.now gathered.now.parts }
        ensures count { self.new.count ≤ self.old.count + 4 }
    {
        self.push_if(head.mandatory_prefix != 0, head.mandatory_prefix);
        self.push_if(gathered.has_rex(), gathered.rex_byte());
        self.push_if(head.table_byte1 != 0, head.table_byte1);
        self.push_if(
            head.table_byte1 != 0 && head.table_byte2 != 0,
            head.table_byte2,
        );
    }

    // the two-byte or three-byte form
    #[tactic(auto, unfolding(crate::specs::Heads::vex_onto))]
    fn push_vex(&mut self, head: &VexHead, gathered: &Gathered)
        requires { self.old.count ≤ 7 }
        ensures bytes { used self.new ≡ vex_onto (used self.old) gathered.now.settings head.now gathered.now.parts }
        ensures count { self.new.count ≤ self.old.count + 4 }
    {
        if gathered.vex_long(head) {
            self.push_all(&[0xC4, gathered.vex_byte1(head), gathered.vex_byte2(head)]);
        } else {
            self.push_all(&[0xC5, gathered.vex_byte(head)]);
        }
    }

    // the four bytes
    #[tactic(auto, unfolding(crate::specs::Heads::evex_onto))]
    fn push_evex(&mut self, head: &EvexHead, gathered: &Gathered)
        requires { self.old.count ≤ 7 }
        ensures bytes { used self.new ≡ evex_onto (used self.old) gathered.now.settings gathered.now.record.now.raw.enc_flags3 head.now gathered.now.parts gathered.now.instruction.now.evex }
        ensures count { self.new.count ≤ self.old.count + 4 }
    {
        self.push_all(&[
            0x62,
            gathered.evex_byte1(head),
            gathered.evex_byte2(head),
            gathered.evex_byte3(head),
        ]);
    }

    // FWAIT and prefixes, then the head
    #[tactic(auto, unfolding(crate::specs::Encode::head_bytes))]
    pub(crate) fn head(gathered: &Gathered) -> Line
        ensures bytes { used result ≡ head_bytes gathered.now.settings gathered.now.record.now.raw gathered.now.parts gathered.now.instruction.now }
        ensures count { result.count ≤ 11 }
    {
        let raw = &gathered.record.raw;
        let mut line = Line::empty();
        line.push_if(raw.enc_flags3.has(Flag::Fwait), 0x9B);
        line.push_prefixes(gathered);
        match &raw.head {
            Head::Legacy(head) => line.push_legacy(head, gathered),
            Head::Vex(head) => line.push_vex(head, gathered),
            Head::Evex(head) => line.push_evex(head, gathered),
        }
        line
    }
}
