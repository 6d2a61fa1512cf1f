use record::Head;
use std::fmt;

// What stands before the opcode.
#[derive(Clone, Copy)]
pub struct HeadText<'a>(pub &'a Head);

// A byte with its key, and without it where it is one of the bytes that are usual there; nothing where it is 0.
#[derive(Clone, Copy)]
struct ByteText(&'static str, u8, &'static [u8]);

impl fmt::Display for ByteText {
    fn fmt<W: fmt::Write>(&self, f: &mut fmt::Formatter<W>) -> fmt::Result {
        let ByteText(key, byte, usual) = *self;
        if usual.contains(&byte) {
            write!(f, " {byte:02X}")
        } else if byte != 0 {
            write!(f, " {key}={byte:02X}")
        } else {
            Ok(())
        }
    }
}

impl<'a> fmt::Display for HeadText<'a> {
    fn fmt<W: fmt::Write>(&self, f: &mut fmt::Formatter<W>) -> fmt::Result {
        match self.0 {
            Head::Legacy(head) => write!(
                f,
                "legacy{}{}{}",
                ByteText("prefix", head.mandatory_prefix, &[0x66, 0xF2, 0xF3]),
                ByteText("table1", head.table_byte1, &[0x0F]),
                ByteText("table2", head.table_byte2, &[0x38, 0x3A])
            ),
            Head::Vex(head) => write!(
                f,
                "vex{}{}{}{}{}",
                ByteText("table", head.table, &[]),
                ByteText("last", head.last_byte, &[]),
                ByteText("mask_w_l", head.mask_w_l, &[]),
                ByteText("mask_l", head.mask_l, &[]),
                if head.w1 { " w1" } else { "" }
            ),
            Head::Evex(head) => write!(
                f,
                "evex{}{}{}{}{}",
                ByteText("table", head.table, &[]),
                ByteText("p1", head.p1_bits, &[]),
                ByteText("ll", head.ll_bits, &[]),
                ByteText("mask_w", head.mask_w, &[]),
                ByteText("mask_ll", head.mask_ll, &[])
            ),
        }
    }
}
