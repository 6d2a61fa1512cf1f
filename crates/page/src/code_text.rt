use record::RawRecord;
use std::fmt;

// A record's opcode and its groups.
#[derive(Clone, Copy)]
pub struct CodeText<'a>(pub &'a RawRecord);

impl<'a> fmt::Display for CodeText<'a> {
    fn fmt<W: fmt::Write>(&self, f: &mut fmt::Formatter<W>) -> fmt::Result {
        let record = self.0;
        let code = record.op_code;
        match (record.is_2byte_opcode, code) {
            (true, 0..=0xFFFF) => write!(f, "{code:04X}")?,
            (true, _) => write!(f, "{code:08X} 2byte")?,
            (false, 0..=0xFF) => write!(f, "{code:02X}")?,
            (false, _) => write!(f, "{code:08X}")?,
        }
        if record.group_index != -1 {
            write!(f, " /{}", record.group_index)?;
        }
        if record.rm_group_index != -1 {
            write!(f, " rm={}", record.rm_group_index)?;
        }
        Ok(())
    }
}
