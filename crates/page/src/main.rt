// Judges a catalogue that people write: each row is sound, or breaks a rule, or cannot be read.
#![tactic(auto)]

mod code_text;
mod flags_text;
mod head_text;
mod judge;
mod operands_text;
mod row_text;
#[cfg(test)]
mod tests;

use catalogue::{BuiltIn, Catalogue};
use judge::Judge;
use row_text::RowText;
use std::io;
use std::io::{BufRead, BufReader, BufWriter, Write};

// the built-in table in the row format, each record named by its number, by which alone a catalogue gives it
fn show_built_in<W: Write>(out: &mut W) -> io::Result<()> {
    let table = BuiltIn;
    for number in 0..table.count() {
        if let Some(record) = table.get(number) {
            writeln!(out, "{number} | {}", RowText(&record.raw))?;
        }
    }
    Ok(())
}

fn main(rt: HostRuntime) -> io::Result<()> {
    let mut judge = Judge::default();
    let mut out = BufWriter::new(rt.alloc(), rt.stdout())?;
    let mut input = BufReader::new(rt.alloc(), rt.stdin())?;
    let mut line = Vec::new(rt.alloc());
    // into one buffer, where `split` takes a new one for each line
    for number in 1..usize::MAX {
        line.clear();
        if input.read_until(b'\n', &mut line)? == 0 {
            break;
        }
        let row = line.as_slice();
        judge.take(&mut out, number, row.strip_suffix(b"\n").unwrap_or(row))?;
    }
    if judge.is_empty() {
        show_built_in(&mut out)?;
    } else {
        writeln!(out, "{judge}")?;
    }
    out.flush()
}
