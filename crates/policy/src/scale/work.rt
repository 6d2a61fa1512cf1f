ghost use Rattle.std.specs.Prelude.{◌≡◌, ℕ, ◌^◌, ◌<◌};
ghost use Rattle.std.specs.Int.Signed.{shr_z};
ghost use Rattle.policy.specs.Bytes.{exact_byte};
ghost use Rattle.policy.specs.Lowest.{lowest};
ghost use Rattle.policy.specs.Meanings.{scale_of, scaled_spread};

use super::super::byte::signed_byte;
use super::super::shift::{shift_down, shift_up};
use super::Scale;
use record::Record;

// N, and Nb under broadcast
fn number(record: &Record, broadcast: bool) -> u8
    ensures { result ≡ scale_of «record».now broadcast }
{
    if broadcast {
        record.raw.nb
    } else {
        record.raw.n
    }
}

impl Scale {
    // the scale of the record
    pub fn of(record: &Record, broadcast: bool) -> Scale
        ensures { result.value ≡ scale_of «record».now broadcast }
    {
        Scale {
            value: number(record, broadcast),
        }
    }

    // the place of the one bit
    fn place(self) -> u32
        ensures power { 2 ^ result ≡ self.value }
        ensures small { result < 8 }
    {
        self.value.trailing_zeros()
    }

    // the byte times the scale
    pub fn times(self, byte: i8) -> i32
        ensures { result ≡ scaled_spread self.value byte }
    {
        shift_up(byte as i32, self.place())
    }

    // the displacement over the scale, rounded down
    fn quotient(self, displ: i32) -> i32
        ensures { result ≡ shr_z displ self.value }
    {
        shift_down(displ, self.place())
    }

    // the quotient, where it is a signed byte and leaves no rest
    fn exact(self, displ: i32) -> Option<i8>
        ensures { result ≡ exact_byte self.value displ }
    {
        let byte = signed_byte(self.quotient(displ))?;
        (self.times(byte) == displ).then_some(byte)
    }

    // the lowest byte that the scale takes to the displacement
    pub fn lowest(self, displ: i32) -> Option<i8>
        ensures { result ≡ lowest (scaled_spread self.value) displ }
    {
        self.exact(displ)
    }
}
