use super::rule::Rule;
use std::fmt;

// What is refused when a record or an instruction is made: layer 1.
#[derive(Clone, Copy)]
pub enum MakingFault {
    Unsound(Rule),
    Field,
}

impl fmt::Display for MakingFault {
    fn fmt<W: fmt::Write>(&self, f: &mut fmt::Formatter<W>) -> fmt::Result {
        match self {
            Self::Unsound(rule) => {
                let number = rule.number();
                write!(f, "not sound by rule {number}: {rule}")
            }
            Self::Field => f.write_str(
                "a field of the instruction is outside its range: a register over 180, an operand kind over 24, a scale or code size over 3, a rounding over 4, an opmask over 7, or a segment that is none of ES to GS",
            ),
        }
    }
}
