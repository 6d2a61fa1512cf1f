use machine::{CodeSize, OpKind, Opmask, Register, RoundingControl, Scale, Segment};

// What belongs to each of the first four operands.
#[derive(Clone, Copy)]
pub struct FirstFour<T> {
    pub op0: T,
    pub op1: T,
    pub op2: T,
    pub op3: T,
}

pub type OperandKinds = FirstFour<OpKind>;

pub type OperandRegisters = FirstFour<Register>;

// The address of a memory operand, but for its displacement: base, index, scale, and the displacement's size as the
// source keeps it.
#[derive(Clone, Copy)]
pub struct MemoryFields {
    pub base: Register,
    pub index: Register,
    pub scale: Scale,
    pub displ_size: u8,
}

// The prefixes that an instruction asks for.
#[derive(Clone, Copy)]
pub struct PrefixFields {
    pub segment: Option<Segment>,
    pub lock: bool,
    pub repe: bool,
    pub repne: bool,
}

// What only EVEX can say.
#[derive(Clone, Copy)]
pub struct EvexFields {
    pub opmask: Opmask,
    pub zeroing: bool,
    pub broadcast: bool,
    pub sae: bool,
    pub rounding: RoundingControl,
}

// An instruction whose fields are in range. Getters share fields: mem_displ holds the displacement, the branch target,
// the second immediate byte and the high half of a 64-bit immediate; immediate holds the others.
#[derive(Clone, Copy)]
pub struct Instruction {
    pub code_size: CodeSize,
    pub prefixes: PrefixFields,
    pub memory: MemoryFields,
    pub mem_displ: u64,
    pub immediate: u32,
    pub kinds: OperandKinds,
    pub registers: OperandRegisters,
    pub evex: EvexFields,
}
