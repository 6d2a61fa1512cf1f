use machine::{Code, OpKind, Register};
use record::{Op, Operands, RegisterRange};
use std::fmt;

// The operands of a record, each with a space before it; an empty place only where another follows.
#[derive(Clone, Copy)]
pub struct OperandsText<'a>(pub &'a Operands);

#[derive(Clone, Copy)]
struct OpText(Op);

// A range by its name, or by its ends.
#[derive(Clone, Copy)]
struct RangeText(RegisterRange);

// A register by its name, or by its number where no register has it.
#[derive(Clone, Copy)]
struct RegisterText(u8);

// A kind by the name that it has there, or by its number.
#[derive(Clone, Copy)]
struct KindText(OpKind, Option<&'static str>);

// the name of a whole bank, or of the first 16 registers of a vector bank
fn range_name(range: RegisterRange) -> Option<&'static str> {
    match (range.lo, range.hi) {
        (1, 20) => Some("r8"),
        (21, 36) => Some("r16"),
        (37, 52) => Some("r32"),
        (53, 68) => Some("r64"),
        (71, 76) => Some("seg"),
        (173, 180) => Some("k"),
        (77, 92) => Some("xmm"),
        (109, 124) => Some("ymm"),
        (141, 156) => Some("zmm"),
        (77, 108) => Some("xmm32"),
        (109, 140) => Some("ymm32"),
        (141, 172) => Some("zmm32"),
        _ => None,
    }
}

// the name of a kind that an immediate expects
fn imm_name(kind: OpKind) -> Option<&'static str> {
    match kind {
        OpKind::Immediate8 => Some("8"),
        OpKind::Immediate8Second => Some("8_2nd"),
        OpKind::Immediate16 => Some("16"),
        OpKind::Immediate32 => Some("32"),
        OpKind::Immediate64 => Some("64"),
        OpKind::Immediate8to16 => Some("8to16"),
        OpKind::Immediate8to32 => Some("8to32"),
        OpKind::Immediate8to64 => Some("8to64"),
        OpKind::Immediate32to64 => Some("32to64"),
        _ => None,
    }
}

// the name of a kind that a branch expects
fn branch_name(kind: OpKind) -> Option<&'static str> {
    match kind {
        OpKind::NearBranch16 => Some("16"),
        OpKind::NearBranch32 => Some("32"),
        OpKind::NearBranch64 => Some("64"),
        _ => None,
    }
}

impl fmt::Display for RangeText {
    fn fmt<W: fmt::Write>(&self, f: &mut fmt::Formatter<W>) -> fmt::Result {
        match range_name(self.0) {
            Some(name) => f.write_str(name),
            None => write!(f, "{}-{}", self.0.lo, self.0.hi),
        }
    }
}

impl fmt::Display for RegisterText {
    fn fmt<W: fmt::Write>(&self, f: &mut fmt::Formatter<W>) -> fmt::Result {
        let Some(register) = Register::new(self.0) else {
            return write!(f, "{}", self.0);
        };
        let name = register.name();
        let name = std::str::from_utf8(&name).unwrap_or("");
        f.write_str(name.trim_end_matches('\0'))
    }
}

impl fmt::Display for KindText {
    fn fmt<W: fmt::Write>(&self, f: &mut fmt::Formatter<W>) -> fmt::Result {
        match self.1 {
            Some(name) => f.write_str(name),
            None => write!(f, "#{}", self.0.number()),
        }
    }
}

impl fmt::Display for OpText {
    fn fmt<W: fmt::Write>(&self, f: &mut fmt::Formatter<W>) -> fmt::Result {
        match self.0 {
            Op::ModRmRm(range) => write!(f, "rm:{}", RangeText(range)),
            Op::ModRmRmMemOnly(false) => f.write_str("mem"),
            Op::ModRmRmMemOnly(true) => f.write_str("mem_sib"),
            Op::Vsib(range) => write!(f, "vsib:{}", RangeText(range)),
            Op::O => f.write_str("moffs"),
            Op::ModRmReg(range) => write!(f, "reg:{}", RangeText(range)),
            Op::RegEmbed8(range) => write!(f, "embed:{}", RangeText(range)),
            Op::Reg(number) => write!(f, "fixed:{}", RegisterText(number)),
            Op::Hx(range) => write!(f, "vvvv:{}", RangeText(range)),
            Op::Ib(kind) => write!(f, "ib:{}", KindText(kind, imm_name(kind))),
            Op::Id(kind) => write!(f, "id:{}", KindText(kind, imm_name(kind))),
            Op::Iq => f.write_str("iq"),
            Op::J(kind, 1) => write!(f, "rel8:{}", KindText(kind, branch_name(kind))),
            Op::J(kind, 2) => write!(f, "rel16:{}", KindText(kind, branch_name(kind))),
            Op::J(kind, 4) => write!(f, "rel32:{}", KindText(kind, branch_name(kind))),
            Op::J(kind, size) => write!(f, "j{size}:{}", KindText(kind, branch_name(kind))),
        }
    }
}

impl<'a> fmt::Display for OperandsText<'a> {
    fn fmt<W: fmt::Write>(&self, f: &mut fmt::Formatter<W>) -> fmt::Result {
        let places = self.0.places();
        let shown = places
            .iter()
            .rposition(|place| place.is_some())
            .map_or(0, |last| last + 1);
        for place in &places[..shown] {
            match place {
                Some(op) => write!(f, " {}", OpText(*op))?,
                None => f.write_str(" -")?,
            }
        }
        Ok(())
    }
}
