use super::refusal::Refusal;
use super::shown::{show_bytes, trimmed};
use catalogue::{BuiltIn, Catalogue};
use encoder::{Encoded, encode};
use fault::{AppendFault, Fault, SheetFault};
use instruction::{Instruction, RawSettings};
use listing::{Asked, Line};
use machine::{Code, Mode};
use policy::port_policy;
use std::io;
use std::io::Write;

// Where the next instruction goes, what is printed to, and how many lines there were by what came of them.
#[derive(Drop)]
pub struct Lister<W> {
    out: W,
    mode: Mode,
    address: u64,
    line: u64,
    accepted: u64,
    refused: u64,
    bad: u64,
}

impl<W: Write> Lister<W> {
    pub fn new(out: W) -> Lister<W> {
        Lister {
            out,
            mode: Mode::Bits64,
            address: 0x1000,
            line: 0,
            accepted: 0,
            refused: 0,
            bad: 0,
        }
    }

    // one line of the listing
    pub fn take(&mut self, line: &[u8]) -> io::Result<()> {
        self.line = self.line.saturating_add(1);
        let line = trimmed(line);
        match self.answer(line) {
            Ok(None) => Ok(()),
            Ok(Some(encoded)) => self.accept(line, &encoded),
            Err(refusal) => self.refuse(line, refusal),
        }
    }

    // what an instruction that a line asks for becomes; none where the line asks for none
    fn answer(&mut self, line: &[u8]) -> Result<Option<Encoded>, Refusal> {
        match Line::parse(line)? {
            None => Ok(None),
            Some(Line::Mode(mode)) => {
                self.mode = mode;
                Ok(None)
            }
            Some(Line::At(address)) => {
                self.address = address;
                Ok(None)
            }
            Some(Line::Asked(asked)) => Ok(Some(self.encoded(&asked)?)),
        }
    }

    fn encoded(&self, asked: &Asked) -> Result<Encoded, Refusal> {
        let no_record = Fault::Append(AppendFault::Sheet(SheetFault::NoRecord));
        let record = BuiltIn.get(asked.number).ok_or(no_record)?;
        let mode = self.mode.number();
        let raw = asked.instruction(mode, &record.raw.operands)?;
        let instruction = Instruction::new(&raw).map_err(Fault::Making)?;
        let policy = port_policy();
        let encoded = encode(
            &policy,
            RawSettings::default(),
            mode,
            self.address,
            &record,
            &instruction,
        );
        encoded.result.map_err(Fault::Encode)?;
        Ok(encoded)
    }

    fn accept(&mut self, line: &[u8], encoded: &Encoded) -> io::Result<()> {
        let bytes = encoded.line.bytes();
        let address = self.address;
        self.accepted = self.accepted.saturating_add(1);
        self.address = address.wrapping_add(bytes.len() as u64);
        show_bytes(&mut self.out, address, bytes)?;
        self.out.write_all(line)?;
        self.out.write_all(b"\n")
    }

    fn refuse(&mut self, line: &[u8], refusal: Refusal) -> io::Result<()> {
        match refusal {
            Refusal::Line(fault) => {
                self.bad = self.bad.saturating_add(1);
                writeln!(
                    self.out,
                    "line {}, column {}: {fault}",
                    self.line, fault.column
                )
            }
            Refusal::Instruction(fault) => {
                self.refused = self.refused.saturating_add(1);
                write!(self.out, "{:08X}  refused: {fault}: ", self.address)?;
                self.out.write_all(line)?;
                self.out.write_all(b"\n")
            }
        }
    }

    // the counts, once all lines are taken
    pub fn end(&mut self) -> io::Result<()> {
        writeln!(
            self.out,
            "{} accepted, {} refused, {} bad lines",
            self.accepted, self.refused, self.bad
        )?;
        self.out.flush()
    }
}
