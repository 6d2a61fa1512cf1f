ghost use Rattle.std.specs.Prelude.{◌≡◌};
ghost use Rattle.record.specs.Classes.{op_places};

use machine::OpKind;

// A range of registers by number, both ends included.
#[derive(Clone, Copy)]
pub struct RegisterRange {
    pub lo: u8,
    pub hi: u8,
}

// An operand of a record: which kind the encoder takes it for, and what it may be.
#[derive(Clone, Copy)]
pub enum Op {
    // OpModRM_rm: a register of the range, or memory, in ModRM.rm
    ModRmRm(RegisterRange),
    // OpModRM_rm_mem_only: memory alone; the flag is must_use_sib
    ModRmRmMemOnly(bool),
    // OpVsib: memory whose index is a vector register of the range
    Vsib(RegisterRange),
    // OpO: memory at an absolute offset, without ModRM
    O,
    // OpModRM_reg: a register in ModRM.reg
    ModRmReg(RegisterRange),
    // OpRegEmbed8: a register in the opcode's low three bits
    RegEmbed8(RegisterRange),
    // OpReg: one register, by number, which no byte carries
    Reg(u8),
    // OpHx: a register in vvvv
    Hx(RegisterRange),
    // OpIb: an immediate byte, the first or the second
    Ib(OpKind),
    // OpId: an immediate of four bytes
    Id(OpKind),
    // OpIq: an immediate of eight bytes
    Iq,
    // OpJ: a branch to a target of the kind, over a displacement of the size
    J(OpKind, u8),
}

// The operands of a record, by place. A place is filled only where the one before it is. The places have names of their
// own, as the format has them; `places` gives them as one list.
#[derive(Clone, Copy)]
pub struct Operands {
    pub op0: Option<Op>,
    pub op1: Option<Op>,
    pub op2: Option<Op>,
    pub op3: Option<Op>,
    pub op4: Option<Op>,
}

impl Operands {
    // the places in their order
    pub fn places(&self) -> [Option<Op>; 5]
        ensures { result ≡ op_places self.now }
    {
        [self.op0, self.op1, self.op2, self.op3, self.op4]
    }
}
