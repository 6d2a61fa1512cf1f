// Rule 7: the modes, the address size and the operand size fit together.
ghost use Rattle.std.specs.Prelude.{◌≡◌};
ghost use Rattle.record.specs.Rules.{address_open, sets_w, modes_fit, modes_hold};

use super::super::class::Class;
use super::super::flags::Flag;
use super::super::raw::RawRecord;
use machine::CodeSize;

fn address_open(size: CodeSize) -> bool
    ensures { result ≡ address_open size }
{
    matches!(size, CodeSize::Unknown | CodeSize::Code64)
}

// some mode is allowed; memory leaves the address size open; REX.W is for mode 64 alone
fn fits(old: bool, new: bool, mem: bool, free: bool, wide: bool) -> bool
    ensures { result ≡ modes_fit old new mem free wide }
{
    (old || new) && (!mem || free) && (!wide || (new && !old))
}

impl RawRecord {
    fn sets_w(&self) -> bool
        ensures { result ≡ sets_w self.now }
    {
        self.head.is_legacy()
            && self.op_size == CodeSize::Code64
            && !self.enc_flags3.has(Flag::DefaultOpSize64)
    }

    pub(crate) fn modes_hold(&self) -> bool
        ensures { result ≡ modes_hold self.now }
    {
        fits(
            self.enc_flags3.has(Flag::Bit16Or32),
            self.enc_flags3.has(Flag::Bit64),
            self.operands.has(Class::Memory) || self.operands.has(Class::Offset),
            address_open(self.addr_size),
            self.sets_w(),
        )
    }
}
