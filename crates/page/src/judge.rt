use std::io::Write;
use std::{fmt, io};
use text::Row;

// How many rows there were, by what came of them.
#[derive(Clone, Copy, Default)]
pub struct Judge {
    sound: u64,
    unsound: u64,
    bad: u64,
}

// whether a line is empty or a comment
fn passed_over(line: &[u8]) -> bool {
    line.iter()
        .find(|byte| !matches!(**byte, b' ' | b'\t'))
        .is_none_or(|byte| *byte == b'#')
}

impl Judge {
    fn rows(&self) -> u64 {
        self.sound
            .saturating_add(self.unsound)
            .saturating_add(self.bad)
    }

    // whether no row was met
    pub fn is_empty(&self) -> bool {
        self.rows() == 0
    }

    // judges the line of this number
    pub fn take<W: Write>(&mut self, out: &mut W, number: usize, line: &[u8]) -> io::Result<()> {
        if passed_over(line) {
            return Ok(());
        }
        match Row::parse(line) {
            Ok(row) => self.judge_row(out, line, &row),
            Err(fault) => {
                self.bad = self.bad.saturating_add(1);
                writeln!(out, "line {number}, column {}: {fault}", fault.column)
            }
        }
    }

    fn judge_row<W: Write>(&mut self, out: &mut W, line: &[u8], row: &Row) -> io::Result<()> {
        write!(out, "{}  ", self.rows())?;
        if let Some(name) = line.get(row.name.from..row.name.to) {
            out.write_all(name)?;
        }
        match row.record.broken_rule() {
            None => {
                self.sound = self.sound.saturating_add(1);
                writeln!(out, ": sound")
            }
            Some(rule) => {
                self.unsound = self.unsound.saturating_add(1);
                writeln!(out, ": broken rule {}: {rule}", rule.number())
            }
        }
    }
}

// The counts.
impl fmt::Display for Judge {
    fn fmt<W: fmt::Write>(&self, f: &mut fmt::Formatter<W>) -> fmt::Result {
        write!(
            f,
            "{} rows: {} sound, {} unsound, {} bad",
            self.rows(),
            self.sound,
            self.unsound,
            self.bad
        )
    }
}
