ghost use Rattle.std.specs.Prelude.{◌≡◌};
ghost use Rattle.replay.specs.Answers.{sound_of};

use fault::Rule;
use record::RawRecord;

// the number of the first rule that a record breaks, 0 for none, as an answer line has it
pub fn sound(raw: &RawRecord) -> u8
    ensures { result ≡ sound_of raw.now }
{
    raw.broken_rule().map_or(0, Rule::number)
}
