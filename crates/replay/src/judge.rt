use super::answer::sound;
use super::encoded::encoded;
use super::entry::Entry;
use super::expected::Expected;
use super::reply::Reply;
use super::way::Way;
use std::io;
use std::io::Write;

// What has been taken so far.
#[derive(Clone, Copy)]
pub struct Judge {
    // the way of every line, where the lines name none
    way: Option<Way>,
    taken: u64,
    differ: u64,
}

impl Judge {
    pub fn new(way: Option<Way>) -> Judge {
        Judge {
            way,
            taken: 0,
            differ: 0,
        }
    }

    // answers or compares the line of this number
    pub fn take<W: Write>(&mut self, out: &mut W, number: usize, line: &[u8]) -> io::Result<()> {
        match Entry::parse(self.way, line) {
            Ok(None) => Ok(()),
            Ok(Some(entry)) => self.judge(out, number, &entry),
            Err(fault) => {
                self.count(true);
                writeln!(out, "line {number}: {fault}")
            }
        }
    }

    fn count(&mut self, differs: bool) {
        self.taken = self.taken.saturating_add(1);
        self.differ = self.differ.saturating_add(u64::from(differs));
    }

    fn judge<W: Write>(&mut self, out: &mut W, number: usize, entry: &Entry) -> io::Result<()> {
        let reply = match entry.way {
            Way::Sound => Reply::Sound(sound(&entry.case.record)),
            Way::Encode => Reply::Encoded(encoded(&entry.case)),
        };
        let Some(expected) = entry.expected else {
            self.count(false);
            return writeln!(out, "{reply}");
        };
        let same = Expected::new(expected).is(&reply);
        self.count(!same);
        if same {
            return Ok(());
        }
        write!(out, "line {number}: expected ")?;
        out.write_all(expected)?;
        writeln!(out, " got {reply}")
    }

    // the counts, where the lines name their ways
    pub fn end<W: Write>(&self, out: &mut W) -> io::Result<()> {
        if self.way.is_some() {
            return Ok(());
        }
        writeln!(out, "{} lines, {} differ", self.taken, self.differ)
    }
}
