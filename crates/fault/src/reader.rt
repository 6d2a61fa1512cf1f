use std::fmt;

// What the reader refuses: layer 5.
#[derive(Clone, Copy)]
pub enum ReadFault {
    Mode = 55,
    Ends = 70,
    Differs = 71,
}

// what is wrong, and what was expected
impl fmt::Display for ReadFault {
    fn fmt<W: fmt::Write>(&self, f: &mut fmt::Formatter<W>) -> fmt::Result {
        f.write_str(match self {
            Self::Mode => "the mode is not 16, 32 or 64",
            Self::Ends => "the bytes end, or fifteen are read, before the last field ends",
            Self::Differs =>
                "the bytes are not those of the record: a fixed byte, bit or field, the map, the last prefix, a register outside its bank, or an address of another form",
        })
    }
}
