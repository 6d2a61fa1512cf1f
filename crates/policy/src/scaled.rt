ghost use Rattle.policy.specs.Meanings.{scale_of, scaled_spread};
ghost use Rattle.policy.specs.Scales.{scale_sound, scale_small};
ghost use Rattle.policy.specs.Shifts.{times_within};

use super::policy::Policy;
use super::scale::Scale;
use record::Record;

// The byte stands for itself times the record's scale: N, and Nb under broadcast.
#[derive(Clone, Copy)]
pub struct Scaled;

impl Policy for Scaled {
    ghost spread = { λ _ x broadcast. scaled_spread (scale_of x broadcast) };

    ghost within = { λ p x broadcast byte small. times_within (scale_of x broadcast) byte (scale_small (scale_of x broadcast) (scale_sound x broadcast)) small };

    fn spread(&self, record: &Record, broadcast: bool, byte: i8) -> i32 {
        Scale::of(record, broadcast).times(byte)
    }

    fn shorten(&self, record: &Record, broadcast: bool, displ: i32) -> Option<i8> {
        Scale::of(record, broadcast).lowest(displ)
    }
}
