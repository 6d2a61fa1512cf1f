use machine::CodeSize;

// What a row says of the opcode.
#[derive(Clone, Copy)]
pub(crate) struct CodePart {
    pub(crate) op_code: u32,
    pub(crate) is_2byte: bool,
    pub(crate) group: i8,
    pub(crate) rm_group: i8,
}

// What a row says of flags, sizes and scales.
#[derive(Clone, Copy)]
pub(crate) struct FlagPart {
    pub(crate) bits: u32,
    pub(crate) op_size: CodeSize,
    pub(crate) addr_size: CodeSize,
    pub(crate) n: u8,
    pub(crate) nb: u8,
}
