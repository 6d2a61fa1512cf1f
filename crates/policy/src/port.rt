ghost use Rattle.std.specs.Prelude.{◌≡◌};
ghost use Rattle.policy.specs.Lowest.{lowest, ShorteningIsLowest, ShortensWhatIsReached};
ghost use Rattle.policy.specs.Meanings.{port_spread};

use super::chooser::Chooser;
use super::plain::Plain;
use super::policy::Policy;
use super::scaled::Scaled;
use record::Record;

// The port's own policy: EVEX records scale the byte, the rest take it as it stands.
pub type PortPolicy = Chooser<Scaled, Plain>;

// the port's own policy, with what holds of shortening under every policy
#[tactic(auto, using(crate::proofs::LowestIs::shortening_is_lowest, crate::proofs::LowestIs::lowest_reached))]
pub fn port_policy() -> PortPolicy
    ensures shortening { ShorteningIsLowest }
    ensures reached { ShortensWhatIsReached }
{
    Chooser {
        evex: Scaled,
        rest: Plain,
    }
}

// the number that the byte stands for under the port's own policy
pub fn port_spread(record: &Record, broadcast: bool, byte: i8) -> i32
    ensures { result ≡ port_spread «record».now broadcast byte }
{
    port_policy().spread(record, broadcast, byte)
}

// the lowest byte that stands for the displacement under the port's own policy
pub fn port_shorten(record: &Record, broadcast: bool, displ: i32) -> Option<i8>
    ensures { result ≡ lowest (port_spread «record».now broadcast) displ }
{
    port_policy().shorten(record, broadcast, displ)
}
