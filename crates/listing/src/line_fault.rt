use std::fmt;

// What a line should have had at some column.
#[derive(Clone, Copy)]
pub enum Wanted {
    First,
    Mode,
    Address,
    End,
    Operand,
    Number,
    Open,
    Term,
    Target,
    Factor,
    Close,
    Size,
    Comma,
    FewerOperands,
}

// What is wrong with a line: what was expected, at a column counted from 1.
#[derive(Clone, Copy)]
pub struct ListingFault {
    pub column: usize,
    pub wanted: Wanted,
}

impl fmt::Display for Wanted {
    fn fmt<W: fmt::Write>(&self, f: &mut fmt::Formatter<W>) -> fmt::Result {
        f.write_str(match self {
            Wanted::First => "expected a record's number 0 to 65535, mode or at",
            Wanted::Mode => "expected the mode 16, 32 or 64",
            Wanted::Address => "expected an address below 2^64",
            Wanted::End => "expected the end of the line",
            Wanted::Operand =>
                "expected a register, a number or memory in brackets, once in a line, and a number as fifth operand",
            Wanted::Number => "expected a number, at most 2^63 behind a minus",
            Wanted::Open => "expected memory in brackets behind the segment",
            Wanted::Term =>
                "expected a register or the displacement: at most a base, an index and one number",
            Wanted::Target =>
                "expected +, - or ], * where there is no index yet, or a number behind RIP or EIP",
            Wanted::Factor => "expected a factor 1, 2, 4 or 8",
            Wanted::Close => "expected +, - or ]",
            Wanted::Size => "expected a displacement size 0, 1, 2, 4 or 8",
            Wanted::Comma =>
                "expected a comma, : behind a segment register, / behind memory, or {K1} to {K7}, {z}, {bcst}, {sae}, {rn}, {rd}, {ru} or {rz}; at most five operands, one mask and one rounding",
            Wanted::FewerOperands => "expected no more operands than the record has",
        })
    }
}

impl fmt::Display for ListingFault {
    fn fmt<W: fmt::Write>(&self, f: &mut fmt::Formatter<W>) -> fmt::Result {
        write!(f, "{}", self.wanted)
    }
}
