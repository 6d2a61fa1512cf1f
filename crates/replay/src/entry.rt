ghost use Rattle.std.specs.Prelude.{◌≡◌};
ghost use Rattle.std.specs.Option.{option_map};
ghost use Rattle.replay.specs.Cuts.{less_last, less_first, Cut};

use super::way::Way;
use std::fmt;
use text::{Case, CaseFault};

// A line taken apart: a case, what is asked of it, and the answer that is expected.
#[derive(Clone, Copy)]
pub struct Entry<'a> {
    pub way: Way,
    pub case: Case,
    pub expected: Option<&'a [u8]>,
}

// Why a line has no case.
#[derive(Clone, Copy)]
pub enum EntryFault {
    // no way's word stands first
    NoWay,
    Case(CaseFault),
}

impl From<CaseFault> for EntryFault {
    fn from(fault: CaseFault) -> EntryFault {
        EntryFault::Case(fault)
    }
}

impl fmt::Display for EntryFault {
    fn fmt<W: fmt::Write>(&self, f: &mut fmt::Formatter<W>) -> fmt::Result {
        match self {
            EntryFault::NoWay => f.write_str("expected one of the words sound, encode and a case"),
            EntryFault::Case(fault) => write!(f, "{fault}"),
        }
    }
}

// what stands before the first such byte, and what after it
fn cut(line: &[u8], byte: u8) -> (&[u8], Option<&[u8]>)
    ensures { Cut line.now byte result.0.now (option_map (λ x. x.now) result.1) }
{
    match line.iter().position(|x| *x == byte) {
        Some(at) => (&line[..at], Some(&line[at + 1..])),
        None => (line, None),
    }
}

// a line without such a byte at its end
fn less_last(line: &[u8], byte: u8) -> &[u8]
    ensures { result.now ≡ less_last line.now byte }
{
    line.strip_suffix(&[byte]).unwrap_or(line)
}

// a line without such a byte at its start
fn less_first(line: &[u8], byte: u8) -> &[u8]
    ensures { result.now ≡ less_first line.now byte }
{
    line.strip_prefix(&[byte]).unwrap_or(line)
}

impl<'a> Entry<'a> {
    // a line, whose first word is its way where none is given; none for an empty line or a comment
    pub fn parse(given: Option<Way>, line: &'a [u8]) -> Result<Option<Entry<'a>>, EntryFault> {
        if matches!(line, [] | [b'#', ..]) {
            return Ok(None);
        }
        let (way, line) = match given {
            Some(way) => (way, line),
            None => {
                let (word, rest) = cut(line, b' ');
                Way::named(word).zip(rest).ok_or(EntryFault::NoWay)?
            }
        };
        let (case, expected) = match cut(line, b'=') {
            (case, Some(answer)) => (less_last(case, b' '), Some(less_first(answer, b' '))),
            (case, None) => (case, None),
        };
        Ok(Some(Entry {
            way,
            case: Case::parse(case)?,
            expected,
        }))
    }
}
