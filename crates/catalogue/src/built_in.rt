ghost use Rattle.std.specs.Prelude.{◌≡◌};
ghost use Rattle.catalogue.specs.Built.{built_rows};
ghost use Rattle.catalogue.specs.Meaning.{row_of, TenSoundRecords};

use super::catalogue::Catalogue;
use super::table::row;
use record::Record;

// The built-in table. Its rows are proved sound, so that none is judged when it is asked for.
#[derive(Clone, Copy)]
pub struct BuiltIn;

impl Catalogue for BuiltIn {
    ghost means = { λ s n. row_of built_rows n };

    fn get(&self, number: u16) -> Option<Record> {
        let raw = row(number)?;
        Some(Record { raw })
    }
}

impl BuiltIn {
    // how many records there are, each of them sound
    #[tactic(auto, using(crate::proofs::Rowed::ten_sound_records))]
    pub fn count(self) -> u16
        ensures value { result ≡ 10 }
        ensures sound { TenSoundRecords }
    {
        10
    }
}
