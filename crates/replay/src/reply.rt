use encoder::Encoded;
use fault::{Fault, FaultCode, MakingFault};
use std::fmt;

// What is answered to a case, and printed as an answer line.
#[derive(Clone, Copy)]
pub enum Reply {
    // the number of the first rule that its record breaks, 0 for none
    Sound(u8),
    // its encoding, as status, number, place, layer, length and bytes
    Encoded(Result<Encoded, MakingFault>),
}

// A fault as its number, place and layer; an unsound record's place is the number of its rule.
#[derive(Clone, Copy)]
struct FaultText(Fault);

// Bytes as their count and their digits, which are `-` where there is no byte.
#[derive(Clone, Copy)]
struct BytesText<'a>(&'a [u8]);

impl fmt::Display for FaultText {
    fn fmt<W: fmt::Write>(&self, f: &mut fmt::Formatter<W>) -> fmt::Result {
        let FaultCode {
            number,
            place,
            layer,
        } = self.0.code();
        let place = match self.0 {
            Fault::Making(MakingFault::Unsound(rule)) => rule.number(),
            _ => place,
        };
        write!(f, "{number} {place} {layer}")
    }
}

impl<'a> fmt::Display for BytesText<'a> {
    fn fmt<W: fmt::Write>(&self, f: &mut fmt::Formatter<W>) -> fmt::Result {
        write!(f, "{} ", self.0.len())?;
        if self.0.is_empty() {
            return f.write_str("-");
        }
        for byte in self.0 {
            write!(f, "{byte:02x}")?;
        }
        Ok(())
    }
}

impl fmt::Display for Reply {
    fn fmt<W: fmt::Write>(&self, f: &mut fmt::Formatter<W>) -> fmt::Result {
        match self {
            Reply::Sound(number) => write!(f, "{number}"),
            Reply::Encoded(Ok(encoded)) => {
                let bytes = BytesText(encoded.line.bytes());
                match encoded.result {
                    Ok(_) => write!(f, "0 0 0 0 {bytes}"),
                    Err(fault) => write!(f, "1 {} {bytes}", FaultText(Fault::Encode(fault))),
                }
            }
            Reply::Encoded(Err(fault)) => {
                write!(
                    f,
                    "2 {} {}",
                    FaultText(Fault::Making(*fault)),
                    BytesText(&[])
                )
            }
        }
    }
}
