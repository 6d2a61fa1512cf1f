ghost use Rattle.std.specs.Prelude.{◌≡◌, Some, None, MatchResult};
ghost use Rattle.fault.specs.declared.rule.Rule.{Rule};
ghost use Rattle.fault.specs.declared.making.MakingFault.TheVariants.{Unsound};
ghost use Rattle.record.specs.Making.{record_of};
ghost use Rattle.record.specs.Rules.{broken};

use super::raw::RawRecord;
use super::sound::Record;
use fault::MakingFault;

impl Record {
    // a sound record of these fields, or refusal 60 with the first rule that they break
    pub fn new(raw: RawRecord) -> Result<Record, MakingFault>
        ensures { result ≡ record_of raw }
    {
        judged(raw)
    }
}

fn judged(raw: RawRecord) -> Result<Record, MakingFault>
    ensures { MatchResult result (λ x. (x.raw ≡ raw) × (broken raw ≡ None)) (λ e. ((rule : Rule) × (e ≡ Unsound rule) × (broken raw ≡ Some rule))) }
{
    match raw.broken_rule() {
        Some(rule) => Err(MakingFault::Unsound(rule)),
        None => Ok(Record { raw }),
    }
}
