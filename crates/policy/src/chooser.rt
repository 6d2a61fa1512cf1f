ghost use Rattle.std.specs.Prelude.{◌≡◌, if◌then◌else◌};
ghost use Rattle.record.specs.Rules.{is_evex};
ghost use Rattle.std.proofs.lemmas.Bool.{cond_both};
ghost use Rattle.policy.specs.Lowest.{Displacement};

use super::policy::Policy;
use record::Record;

// Two policies: the first for EVEX records, the second for the rest.
#[derive(Clone, Copy)]
pub struct Chooser<E, P> {
    pub evex: E,
    pub rest: P,
}

// whether the record's head is EVEX, asked in one place for both calls
fn has_evex(record: &Record) -> bool
    ensures { result ≡ is_evex «record».now.raw.head }
{
    record.raw.head.is_evex()
}

impl<E: Policy, P: Policy> Policy for Chooser<E, P> {
    ghost spread = { λ p x broadcast. if is_evex x.raw.head then E.spread p.evex x broadcast else P.spread p.rest x broadcast };

    ghost within = { λ p x broadcast byte small.
        cond_both (is_evex x.raw.head) (E.spread p.evex x broadcast) (P.spread p.rest x broadcast) (λ meant. Displacement (meant byte))
        (λ _. E.within p.evex x broadcast byte small) (λ _. P.within p.rest x broadcast byte small) };

    fn spread(&self, record: &Record, broadcast: bool, byte: i8) -> i32 {
        if has_evex(record) {
            self.evex.spread(record, broadcast, byte)
        } else {
            self.rest.spread(record, broadcast, byte)
        }
    }

    fn shorten(&self, record: &Record, broadcast: bool, displ: i32) -> Option<i8> {
        if has_evex(record) {
            self.evex.shorten(record, broadcast, displ)
        } else {
            self.rest.shorten(record, broadcast, displ)
        }
    }
}
