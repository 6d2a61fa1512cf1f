// Replays case lines: answers each, or compares the answer with the one that the line carries.
#![tactic(auto)]

mod answer;
mod encoded;
mod entry;
mod expected;
mod judge;
mod reply;
mod way;

use judge::Judge;
use std::io::{BufRead, BufReader, BufWriter, Write};
use std::{env, io};
use way::Way;

// the way that the first argument names; none where there is no argument
fn chosen(rt: &HostRuntime) -> io::Result<Option<Way>> {
    let Some(word) = env::args(rt)?.nth(1) else {
        return Ok(None);
    };
    let way = Way::named(word.as_bytes());
    if way.is_none() {
        eprintln!(rt; "replay: expected no argument or one of the words sound, encode")?;
        return Err(io::Error::from(io::ErrorKind::InvalidInput));
    }
    Ok(way)
}

fn main(rt: HostRuntime) -> io::Result<()> {
    let mut judge = Judge::new(chosen(&rt)?);
    let mut out = BufWriter::new(rt.alloc(), rt.stdout())?;
    let mut input = BufReader::new(rt.alloc(), rt.stdin())?;
    let mut line = Vec::new(rt.alloc());
    // into one buffer, where `split` takes a new one for each line
    for number in 1..usize::MAX {
        line.clear();
        if input.read_until(b'\n', &mut line)? == 0 {
            break;
        }
        let entry = line.as_slice();
        judge.take(&mut out, number, entry.strip_suffix(b"\n").unwrap_or(entry))?;
    }
    judge.end(&mut out)?;
    out.flush()
}
