ghost use Rattle.std.specs.Prelude.{◌≡◌, false, is_some};
ghost use Rattle.record.specs.Rules.{broken};

use super::raw::RawRecord;

// A sound record: its fields break no rule.
#[derive(Clone, Copy)]
pub struct Record {
    pub raw: RawRecord,
    ghost sound: { is_some (broken raw) ≡ false },
}
