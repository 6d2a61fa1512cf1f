// Times the encoder on a corpus of case lines. Without an argument it encodes each case once and prints the counts; with
// the argument `figures` it goes on to time rounds over the whole corpus.
#![tactic(auto)]

use encoder::encode;
use fault::EncodeFault;
use instruction::{Instruction, RawSettings};
use policy::{PortPolicy, port_policy};
use record::Record;
use std::io::{BufRead, BufReader};
use std::time::Instant;
use std::{env, io};
use text::Case;

const ROUNDS: usize = 25;

// A round of so many nanoseconds or more counts as 0.
const TOO_LONG: u64 = 1_000_000_000_000;

// One instruction of the corpus, made.
#[derive(Clone, Copy)]
struct Item {
    mode: u8,
    address: u64,
    record: Record,
    instruction: Instruction,
}

impl Item {
    // the item of a line that is a case whose record and instruction are made
    fn parse(line: &[u8]) -> Option<Item> {
        let case = Case::parse(line).ok()?;
        Some(Item {
            mode: u8::try_from(case.mode).unwrap_or(0),
            address: case.rip,
            record: Record::new(case.record).ok()?,
            instruction: Instruction::new(&case.instruction).ok()?,
        })
    }

    // the length of its encoding, or the first refusal
    fn encode(&self, policy: &PortPolicy) -> Result<u8, EncodeFault> {
        encode(
            policy,
            RawSettings::default(),
            self.mode,
            self.address,
            &self.record,
            &self.instruction,
        )
        .result
    }
}

fn corpus(rt: &HostRuntime) -> io::Result<Vec<Item>> {
    let mut input = BufReader::new(rt.alloc(), rt.stdin())?;
    let mut items = Vec::new(rt.alloc());
    let mut line = Vec::new(rt.alloc());
    // into one buffer, where `split` takes a new one for each line
    for _ in 0..u64::MAX {
        line.clear();
        if input.read_until(b'\n', &mut line)? == 0 {
            break;
        }
        let case = line.as_slice();
        if let Some(item) = Item::parse(case.strip_suffix(b"\n").unwrap_or(case)) {
            items.push(item)?;
        }
    }
    Ok(items)
}

// encodes every item, and adds up the lengths of the accepted ones
fn round(policy: &PortPolicy, items: &[Item]) -> u64 {
    items
        .iter()
        .filter_map(|item| item.encode(policy).ok())
        .map(u64::from)
        .fold(0, u64::wrapping_add)
}

// the times of all rounds, in nanoseconds
fn times(rt: &HostRuntime, policy: &PortPolicy, items: &[Item]) -> io::Result<Vec<u64>> {
    let mut times = Vec::new(rt.alloc());
    let mut sum = 0u64;
    // a round for each, timed on its own
    for _ in 0..ROUNDS {
        let start = Instant::now(rt)?;
        let bytes = round(policy, items);
        let took = start.elapsed(rt)?;
        let nanos = u64::try_from(took.as_nanos())
            .ok()
            .filter(|nanos| *nanos < TOO_LONG);
        sum = sum.wrapping_add(bytes);
        times.push(nanos.unwrap_or(0))?;
    }
    times.sort_unstable();
    println!(rt; "{sum} bytes in all")?;
    Ok(times)
}

// tenths of a nanosecond for each of so many
fn tenths(nanos: u64, count: usize) -> u64 {
    nanos
        .saturating_mul(10)
        .checked_div(count as u64)
        .unwrap_or(0)
}

fn asked(rt: &HostRuntime) -> io::Result<bool> {
    Ok(
        env::args(rt)?
            .nth(1)
            .is_some_and(|word| word.as_str() == "figures"),
    )
}

fn main(rt: HostRuntime) -> io::Result<()> {
    let policy = port_policy();
    let items = corpus(&rt)?;
    let count = items.len();
    let bytes = round(&policy, items.as_slice());
    println!(rt; "{count} instructions, {bytes} bytes")?;
    if !asked(&rt)? || count == 0 {
        return Ok(());
    }
    let times = times(&rt, &policy, items.as_slice())?;
    let best = tenths(times.first().copied().unwrap_or(0), count);
    let median = tenths(times.get(ROUNDS / 2).copied().unwrap_or(0), count);
    println!(rt;
        "best {best}, median {median} tenths of a nanosecond an instruction, {ROUNDS} rounds"
    )
}
