// Rule 3: each slot of the encoding has at most one owner.
ghost use Rattle.std.specs.Prelude.{◌≡◌};
ghost use Rattle.record.specs.Rules.{slots_hold};

use super::super::class::Class;
use super::super::raw::RawRecord;

impl RawRecord {
    pub(crate) fn slots_hold(&self) -> bool
        ensures { result ≡ slots_hold self.now }
    {
        self.operands.count(Class::RmSlot) <= 1
            && self.operands.count(Class::RegSlot) <= 1
            && self.operands.count(Class::Vvvv) <= 1
    }
}
