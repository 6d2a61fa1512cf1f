// Rule 4: ModRM operands and groups fit together.
ghost use Rattle.std.specs.Prelude.{◌≡◌};
ghost use Rattle.record.specs.Rules.{mod_rm_fits, mod_rm_holds};

use super::super::class::Class;
use super::super::raw::RawRecord;

fn fits(reg: bool, group: bool, mem: bool, rm_group: bool, offset: bool) -> bool
    ensures { result ≡ mod_rm_fits reg group mem rm_group offset }
{
    !(reg && group)
        && !(mem && rm_group)
        && (!(reg || group) || mem || rm_group)
        && !(offset && (reg || group || mem || rm_group))
}

impl RawRecord {
    pub(crate) fn mod_rm_holds(&self) -> bool
        ensures { result ≡ mod_rm_holds self.now }
    {
        let operands = &self.operands;
        fits(
            operands.has(Class::RegSlot),
            self.group_index >= 0,
            operands.has(Class::Memory),
            self.rm_group_index >= 0,
            operands.has(Class::Offset),
        )
    }
}
