// A record as the parts of a row after its name.
use super::code_text::CodeText;
use super::flags_text::FlagsText;
use super::head_text::HeadText;
use super::operands_text::OperandsText;
use record::RawRecord;
use std::fmt;

// Shows a record as `head | opcode | flags | operands`, of which `Row::parse` makes the same record again.
#[derive(Clone, Copy)]
pub struct RowText<'a>(pub &'a RawRecord);

impl<'a> fmt::Display for RowText<'a> {
    fn fmt<W: fmt::Write>(&self, f: &mut fmt::Formatter<W>) -> fmt::Result {
        let record = self.0;
        write!(
            f,
            "{} | {} |{} |{}",
            HeadText(&record.head),
            CodeText(record),
            FlagsText(record),
            OperandsText(&record.operands)
        )
    }
}
