ghost use Rattle.std.specs.Prelude.{◌≡◌, Bool, ℤ};
ghost use Rattle.record.specs.declared.sound.Record.{Record};
ghost use Rattle.policy.specs.Lowest.{lowest, SignedByte, Displacement};

use record::Record;

// A displacement policy means, for a record, a broadcast flag and a signed byte, one displacement: the number that the
// byte stands for. Neither call alters the policy.
pub trait Policy {
    ghost spread: { Self → Record → Bool → ℤ → ℤ };

    // the number that the byte stands for
    fn spread(&self, record: &Record, broadcast: bool, byte: i8) -> i32
        ensures { result ≡ spread self.now «record».now broadcast byte };

    // the lowest byte that stands for the displacement, none where there is none
    fn shorten(&self, record: &Record, broadcast: bool, displ: i32) -> Option<i8>
        ensures { result ≡ lowest (spread self.now «record».now broadcast) displ };

    // what a signed byte stands for is a number of 32 bits
    ghost within: { (p : Self) (x : Record) (broadcast : Bool) (byte : ℤ) → SignedByte byte → Displacement (spread p x broadcast byte) };
}
