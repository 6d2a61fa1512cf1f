ghost use Rattle.std.specs.Prelude.{◌≡◌};
ghost use Rattle.policy.specs.Lowest.{lowest};
ghost use Rattle.policy.specs.Meanings.{plain_spread};
ghost use Rattle.std.proofs.Common.{rules};

use super::byte::signed_byte;
use super::policy::Policy;
use record::Record;

// The byte stands for itself.
#[derive(Clone, Copy)]
pub struct Plain;

// the byte that is the displacement
fn same_byte(displ: i32) -> Option<i8>
    ensures { result ≡ lowest plain_spread displ }
{
    signed_byte(displ)
}

impl Policy for Plain {
    ghost spread = { λ _ x broadcast. plain_spread };

    ghost within = { Prim.search rules };

    fn spread(&self, record: &Record, broadcast: bool, byte: i8) -> i32 {
        byte as i32
    }

    fn shorten(&self, record: &Record, broadcast: bool, displ: i32) -> Option<i8> {
        same_byte(displ)
    }
}
