// The rules of a sound record, one module each, and the first that is broken.
mod fields;
mod first_byte;
mod heads;
mod immediates;
mod mod_rm;
mod modes;
mod ranges;
mod slots;

ghost use Rattle.std.specs.Prelude.{◌≡◌};
ghost use Rattle.record.specs.Rules.{broken};

use super::raw::RawRecord;
use fault::Rule;

impl RawRecord {
    // the first rule that is broken, none in a sound record; a loop over the rules would need a match that says the same
    pub fn broken_rule(&self) -> Option<Rule>
        ensures { result ≡ broken self.now }
    {
        if !self.fields_hold() {
            return Some(Rule::Fields);
        }
        if !self.ranges_hold() {
            return Some(Rule::Ranges);
        }
        if !self.slots_hold() {
            return Some(Rule::Slots);
        }
        if !self.mod_rm_holds() {
            return Some(Rule::ModRm);
        }
        if !self.immediates_hold() {
            return Some(Rule::Immediates);
        }
        if !self.heads_hold() {
            return Some(Rule::Heads);
        }
        if !self.modes_hold() {
            return Some(Rule::Modes);
        }
        if !self.first_byte_holds() {
            return Some(Rule::FirstByte);
        }
        None
    }
}
