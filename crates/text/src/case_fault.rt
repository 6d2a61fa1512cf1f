use std::fmt;

// What is wrong with a case line. Numbers are counted from 1.
#[derive(Clone, Copy)]
pub enum CaseFault {
    // at this place stands no decimal number below 2^64, ended by one space or by the line's end
    NotNumber(u8),
    // only so many numbers stand there
    TooFew(u8),
    TooMany,
    // the number at this place is outside 0 to the second part, so that no field can hold it
    NotHeld(u8, u64),
}

impl fmt::Display for CaseFault {
    fn fmt<W: fmt::Write>(&self, f: &mut fmt::Formatter<W>) -> fmt::Result {
        match *self {
            CaseFault::NotNumber(place) => write!(
                f,
                "number {place}: expected a decimal number below 2^64, ended by one space"
            ),
            CaseFault::TooFew(count) => write!(f, "expected 61 numbers, found {count}"),
            CaseFault::TooMany => f.write_str("expected 61 numbers, found more"),
            CaseFault::NotHeld(place, most) => write!(f, "number {place}: expected 0 to {most}"),
        }
    }
}
