// A row's draft, word by word.
ghost use Rattle.std.specs.Prelude.{◌≡◌, ◌<◌};
ghost use Rattle.text.specs.Drafts.{kept, read, wanted_of, with_name, with_head, with_code, with_flags, with_operand, counted, bar_after, word_after, step_of};

use super::code_words::{code_named, code_word};
use super::draft::{Draft, Section};
use super::flag_words::flag_word;
use super::head_words::{head_named, head_word};
use super::operand_words::operand_word;
use super::row::Span;
use super::row_fault::{RowFault, Wanted};
use super::word::Word;
use record::Head;

impl Draft {
    // what may stand next
    fn wanted(&self) -> Wanted
        ensures { result ≡ wanted_of self.now }
    {
        match (self.section, self.words) {
            (Section::Name, _) => Wanted::Name,
            (Section::Head, 0) => Wanted::Head,
            (Section::Head, _) => match self.head {
                Head::Legacy(_) => Wanted::LegacyWord,
                Head::Vex(_) => Wanted::VexWord,
                Head::Evex(_) => Wanted::EvexWord,
            },
            (Section::OpCode, 0) => Wanted::OpCode,
            (Section::OpCode, _) => Wanted::CodeWord,
            (Section::Flags, _) => Wanted::FlagWord,
            (Section::Operands, _) => Wanted::OperandWord,
        }
    }

    fn with_name(&mut self, place: Span)
        ensures { self.new ≡ with_name self.old place }
    {
        let from = if self.words == 0 {
            place.from
        } else {
            self.name.from
        };
        self.name = Span { from, ..place };
    }

    fn with_head(&mut self, word: &[u8]) -> Option<()>
        ensures { kept result self.new ≡ with_head self.old word.now }
    {
        self.head = if self.words == 0 {
            head_named(word)?
        } else {
            head_word(self.head, Word::new(word))?
        };
        Some(())
    }

    fn with_code(&mut self, word: &[u8]) -> Option<()>
        ensures { kept result self.new ≡ with_code self.old word.now }
    {
        self.code = if self.words == 0 {
            code_named(word)?
        } else {
            code_word(self.code, Word::new(word))?
        };
        Some(())
    }

    fn with_flags(&mut self, word: &[u8]) -> Option<()>
        ensures { kept result self.new ≡ with_flags self.old word.now }
    {
        self.flags = flag_word(self.flags, Word::new(word))?;
        Some(())
    }

    // with an operand, or with an empty place for `-`
    fn with_operand(&mut self, word: &[u8]) -> Option<()>
        ensures { kept result self.new ≡ with_operand self.old word.now }
    {
        let op = if word == b"-".as_slice() {
            None
        } else {
            Some(operand_word(Word::new(word))?)
        };
        // not by get_mut: what the array holds after a write through it stayed open
        let place = self.words as usize;
        if place >= self.operands.len() {
            return None;
        }
        self.operands[place] = op;
        Some(())
    }

    // with one word more
    fn counted(&mut self)
        ensures { self.new ≡ counted self.old }
    {
        self.words = self.words.saturating_add(1);
    }

    // after a bar, in the next section
    fn bar(&mut self) -> Option<()>
        ensures { kept result self.new ≡ bar_after self.old }
    {
        self.section = match self.section {
            Section::Name if self.words > 0 => Section::Head,
            Section::Head if self.words > 0 => Section::OpCode,
            Section::OpCode if self.words > 0 => Section::Flags,
            Section::Flags => Section::Operands,
            _ => return None,
        };
        self.words = 0;
        Some(())
    }

    fn word(&mut self, word: &[u8], place: Span) -> Option<()>
        ensures { kept result self.new ≡ word_after self.old word.now place }
    {
        if word == b"|".as_slice() {
            return self.bar();
        }
        match self.section {
            Section::Name => self.with_name(place),
            Section::Head => self.with_head(word)?,
            Section::OpCode => self.with_code(word)?,
            Section::Flags => self.with_flags(word)?,
            Section::Operands => self.with_operand(word)?,
        }
        self.counted();
        Some(())
    }

    // the word that stands at some place of the line, into the draft in place, as copies of it cost more than the words
    pub(crate) fn step(&mut self, word: &[u8], place: Span) -> Result<(), RowFault>
        requires { place.from < place.to }
        ensures { read result self.new ≡ step_of self.old word.now place }
    {
        let wanted = self.wanted();
        self.word(word, place).ok_or(RowFault {
            column: place.from + 1,
            wanted,
        })
    }
}
