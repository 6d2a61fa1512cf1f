ghost use Rattle.catalogue.specs.Meaning.{row_of};

use super::catalogue::Catalogue;
use record::{RawRecord, Record};

// Rows by place: the record of number n is row n, none where the row breaks a rule or is not there.
pub struct Rows<'a> {
    pub rows: &'a [RawRecord],
}

impl<'a> Catalogue for Rows<'a> {
    ghost means = { λ s n. row_of s.rows.now n };

    #[tactic(auto, unfolding(crate::specs::Meaning::row_of))]
    fn get(&self, number: u16) -> Option<Record> {
        let raw = self.rows.get(number as usize)?;
        Record::new(*raw).ok()
    }
}
