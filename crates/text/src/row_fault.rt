use std::fmt;

// What a row should have had at some column.
#[derive(Clone, Copy)]
pub enum Wanted {
    Name,
    Head,
    LegacyWord,
    VexWord,
    EvexWord,
    OpCode,
    CodeWord,
    FlagWord,
    OperandWord,
    // the line ended before its last part
    Bar,
}

// What is wrong with a row: what was expected of the words that a row has, at a column counted from 1.
#[derive(Clone, Copy)]
pub struct RowFault {
    pub column: usize,
    pub wanted: Wanted,
}

impl fmt::Display for Wanted {
    fn fmt<W: fmt::Write>(&self, f: &mut fmt::Formatter<W>) -> fmt::Result {
        f.write_str(match self {
            Wanted::Name => "expected a name, then `|`",
            Wanted::Head => "expected legacy, vex or evex",
            Wanted::LegacyWord =>
                "expected a byte of the head, 66, F3, F2, 0F, 38 or 3A, or prefix=, table1= or table2= and a hexadecimal byte",
            Wanted::VexWord =>
                "expected w1, or table=, last=, mask_w_l= or mask_l= and a hexadecimal byte",
            Wanted::EvexWord =>
                "expected table=, p1=, ll=, mask_w= or mask_ll= and a hexadecimal byte",
            Wanted::OpCode => "expected the opcode in hexadecimal, two digits or four",
            Wanted::CodeWord => "expected / and a group, rm= and a group, or 2byte",
            Wanted::FlagWord =>
                "expected a flag: m16_32 m64 op16 op32 op64 addr16 addr32 addr64 default64 fwait bcst round sae mask zero mask_required, n= or nb= and a decimal byte, or bits= and a hexadecimal number",
            Wanted::OperandWord =>
                "expected at most five operands: rm: vsib: reg: embed: vvvv: and a range, fixed: and a register, ib: id: and an immediate, rel8: rel16: rel32: and a width, mem mem_sib moffs iq, or - for an empty place",
            Wanted::Bar => "expected more parts: name | head | opcode | flags | operands",
        })
    }
}

impl fmt::Display for RowFault {
    fn fmt<W: fmt::Write>(&self, f: &mut fmt::Formatter<W>) -> fmt::Result {
        write!(f, "{}", self.wanted)
    }
}
