use machine::CodeSize;
use record::{EncFlags3, Flag, RawRecord};
use std::fmt;

const MODES: [(Flag, &'static str); 2] = [(Flag::Bit16Or32, "m16_32"), (Flag::Bit64, "m64")];

const FORMS: [(Flag, &'static str); 8] = [
    (Flag::DefaultOpSize64, "default64"),
    (Flag::Fwait, "fwait"),
    (Flag::Broadcast, "bcst"),
    (Flag::RoundingControl, "round"),
    (Flag::SuppressAllExceptions, "sae"),
    (Flag::OpMaskRegister, "mask"),
    (Flag::ZeroingMasking, "zero"),
    (Flag::RequireOpMaskRegister, "mask_required"),
];

// the bits of a flag word that have no word
const OTHERS: u32 = 0x03FC_6FFF;

// The flags, sizes and scales of a record, each with a space before it.
#[derive(Clone, Copy)]
pub struct FlagsText<'a>(pub &'a RawRecord);

// The words of those flags that are set.
#[derive(Clone, Copy)]
struct Words<'a>(EncFlags3, &'a [(Flag, &'static str)]);

// A size with what it is of; nothing where none is stated.
#[derive(Clone, Copy)]
struct SizeText(&'static str, CodeSize);

impl<'a> fmt::Display for Words<'a> {
    fn fmt<W: fmt::Write>(&self, f: &mut fmt::Formatter<W>) -> fmt::Result {
        for (flag, word) in self.1 {
            if self.0.has(*flag) {
                write!(f, " {word}")?;
            }
        }
        Ok(())
    }
}

impl fmt::Display for SizeText {
    fn fmt<W: fmt::Write>(&self, f: &mut fmt::Formatter<W>) -> fmt::Result {
        let SizeText(of, size) = *self;
        match size {
            CodeSize::Unknown => Ok(()),
            CodeSize::Code16 => write!(f, " {of}16"),
            CodeSize::Code32 => write!(f, " {of}32"),
            CodeSize::Code64 => write!(f, " {of}64"),
        }
    }
}

impl<'a> fmt::Display for FlagsText<'a> {
    fn fmt<W: fmt::Write>(&self, f: &mut fmt::Formatter<W>) -> fmt::Result {
        let record = self.0;
        let flags = record.enc_flags3;
        write!(
            f,
            "{}{}{}{}",
            Words(flags, &MODES),
            SizeText("op", record.op_size),
            SizeText("addr", record.addr_size),
            Words(flags, &FORMS)
        )?;
        if flags.bits & OTHERS != 0 {
            write!(f, " bits={:X}", flags.bits & OTHERS)?;
        }
        if record.n != 1 {
            write!(f, " n={}", record.n)?;
        }
        if record.nb != 1 {
            write!(f, " nb={}", record.nb)?;
        }
        Ok(())
    }
}
