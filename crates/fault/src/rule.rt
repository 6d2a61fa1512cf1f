use std::fmt;

// The rules of a sound record, in the order in which they are tried: 1 to 8.
#[derive(Clone, Copy)]
pub enum Rule {
    Fields = 1,
    Ranges = 2,
    Slots = 3,
    ModRm = 4,
    Immediates = 5,
    Heads = 6,
    Modes = 7,
    FirstByte = 8,
}

// what is wrong, and what was expected
impl fmt::Display for Rule {
    fn fmt<W: fmt::Write>(&self, f: &mut fmt::Formatter<W>) -> fmt::Result {
        f.write_str(match self {
            Self::Fields => "a field of the record is outside its range",
            Self::Ranges =>
                "a register range is not one whole bank, or not one that this head and operand may have",
            Self::Slots =>
                "two operands want the same place in the encoding: at most one may go to ModRM.rm, memory or the opcode, one to ModRM.reg, one to vvvv",
            Self::ModRm => "the groups and the ModRM operands do not fit together",
            Self::Immediates =>
                "the immediate operands are not none, Ib, Ib Ib, Id, Iq or one branch of a known size, or expect no immediate kind",
            Self::Heads => "an operand or the broadcast form does not belong to this head",
            Self::Modes => "the mode flags, address size or operand size do not fit together",
            Self::FirstByte =>
                "the first byte after the prefixes reads as a prefix or as REX, or the opcode has no room for its register",
        })
    }
}
