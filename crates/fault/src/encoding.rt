use std::fmt;

// What an encoding is refused for besides its operands: layer 3.
#[derive(Clone, Copy)]
pub enum EncodingFault {
    Only1632 = 1,
    Only64 = 2,
    HighByteWithRex = 35,
    OpmaskNotAllowed = 36,
    OpmaskRequired = 37,
    SaeNotAllowed = 38,
    RoundingNotAllowed = 39,
    BroadcastNotAllowed = 40,
    ZeroingNotAllowed = 41,
    RipDistance = 42,
    BranchDistance = 43,
    TooLong = 44,
    VsibWithoutIndex = 45,
    MemoryWithRounding = 46,
    Setting = 53,
    Mode = 55,
}

// what is wrong, and what was expected
impl fmt::Display for EncodingFault {
    fn fmt<W: fmt::Write>(&self, f: &mut fmt::Formatter<W>) -> fmt::Result {
        f.write_str(match self {
            Self::Only1632 => "the record is for modes 16 and 32 only",
            Self::Only64 => "the record is for mode 64 only",
            Self::HighByteWithRex =>
                "AH, CH, DH or BH is used together with something that needs a REX prefix",
            Self::OpmaskNotAllowed => "an opmask register is used and the record allows none",
            Self::OpmaskRequired => "no opmask register is used and the record requires one",
            Self::SaeNotAllowed =>
                "suppress-all-exceptions is asked and the record does not have it",
            Self::RoundingNotAllowed => "rounding control is asked and the record does not have it",
            Self::BroadcastNotAllowed =>
                "broadcast is asked and the record or operand does not have it",
            Self::ZeroingNotAllowed => "zeroing is asked and the record does not have it",
            Self::RipDistance =>
                "the RIP relative target is farther away than 32 signed bits reach",
            Self::BranchDistance =>
                "the branch target is farther away than its displacement reaches",
            Self::TooLong => "the instruction is longer than fifteen bytes",
            Self::VsibWithoutIndex =>
                "an address with a vector index has a base and no index; its bytes would read as index register 4",
            Self::MemoryWithRounding =>
                "a memory operand is used with suppress-all-exceptions or rounding; its bytes would read as broadcast",
            Self::Setting => "a setting is outside its range: 0 or 1, and 0 to 3 for evex_lig",
            Self::Mode => "the mode is not 16, 32 or 64",
        })
    }
}
