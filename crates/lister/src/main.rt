// Encodes a listing: instructions as people write them, each with its bytes or what is refused.
#![tactic(auto)]

mod lister;
mod refusal;
mod shown;

use lister::Lister;
use std::io;
use std::io::{BufRead, BufReader, BufWriter};

fn main(rt: HostRuntime) -> io::Result<()> {
    let mut input = BufReader::new(rt.alloc(), rt.stdin())?;
    let mut lister = Lister::new(BufWriter::new(rt.alloc(), rt.stdout())?);
    let mut line = Vec::new(rt.alloc());
    // `split` takes the \n away, and a \r counts as blank only where a \n follows it
    for _ in 0..u64::MAX {
        line.clear();
        if input.read_until(b'\n', &mut line)? == 0 {
            break;
        }
        lister.take(line.as_slice())?;
    }
    lister.end()
}
