use std::fmt;

// What a sheet refuses from its own state: layer 4.
#[derive(Clone, Copy)]
pub enum SheetFault {
    PageShort = 50,
    IndexFull = 51,
    NoRecord = 52,
    Setting = 53,
    Shrunk = 54,
    Mode = 55,
}

// what is wrong, and what was expected
impl fmt::Display for SheetFault {
    fn fmt<W: fmt::Write>(&self, f: &mut fmt::Formatter<W>) -> fmt::Result {
        f.write_str(match self {
            Self::PageShort => "the page is too short for the instruction",
            Self::IndexFull =>
                "the index is full: 4096 instructions, or no free entry in one of its arrays",
            Self::NoRecord => "the catalogue has no record of this number",
            Self::Setting => "a setting is outside its range: 0 or 1, and 0 to 3 for evex_lig",
            Self::Shrunk => "the page or an array is shorter than what the sheet holds",
            Self::Mode => "the mode is not 16, 32 or 64",
        })
    }
}
