// Rule 8: the first byte after prefixes, mandatory byte and REX is none of these itself.
ghost use Rattle.std.specs.Prelude.{◌≡◌, ◌<◌};
ghost use Rattle.record.specs.Rules.{is_prefix, is_rex, begins, begins_embedded, only_old, first_holds, head_first_holds, first_byte_holds};

use super::super::class::Class;
use super::super::flags::Flag;
use super::super::head::{Head, LegacyHead};
use super::super::raw::RawRecord;

fn is_prefix(byte: u32) -> bool
    ensures { result ≡ is_prefix byte }
{
    matches!(
        byte,
        0x26 | 0x2E | 0x36 | 0x3E | 0x64 | 0x65 | 0x66 | 0x67 | 0xF0 | 0xF2 | 0xF3
    )
}

fn begins(only_old: bool, byte: u32) -> bool
    ensures { result ≡ begins only_old byte }
{
    !is_prefix(byte) && (!(0x40 <= byte && byte <= 0x4F) || only_old)
}

// the same of every byte that an embedded register can make
fn begins_embedded(only_old: bool, byte: u32) -> bool
    requires { byte < 65536 }
    ensures { result ≡ begins_embedded only_old byte }
{
    (byte..byte + 8).all(|byte| begins(only_old, byte))
}

impl RawRecord {
    fn only_old(&self) -> bool
        ensures { result ≡ only_old self.now }
    {
        self.enc_flags3.has(Flag::Bit16Or32) && !self.enc_flags3.has(Flag::Bit64)
    }

    fn first_holds(&self, head: &LegacyHead) -> bool
        requires { self.now.op_code < 65536 }
        ensures { result ≡ first_holds self.now head.now }
    {
        let only_old = self.only_old();
        if head.table_byte1 != 0 {
            return begins(only_old, head.table_byte1 as u32);
        }
        if self.is_2byte_opcode {
            return begins(only_old, self.op_code / 256);
        }
        if self.operands.has(Class::Embedded) {
            return begins_embedded(only_old, self.op_code);
        }
        begins(only_old, self.op_code)
    }

    pub(crate) fn first_byte_holds(&self) -> bool
        requires { self.now.op_code < 65536 }
        ensures { result ≡ first_byte_holds self.now }
    {
        if self.operands.has(Class::Embedded) && self.op_code % 8 != 0 {
            return false;
        }
        match &self.head {
            Head::Legacy(head) => self.first_holds(head),
            Head::Vex(_) | Head::Evex(_) => true,
        }
    }
}
