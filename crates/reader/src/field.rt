// The fields of an instruction.
#[derive(Clone, Copy)]
pub enum FieldName {
    Prefixes,
    Head,
    Opcode,
    ModRm,
    Displacement,
    Immediate,
}

// A field as a part of the page with the place of its first byte: prefixes with FWAIT and mandatory byte; REX and table
// bytes, VEX or EVEX; opcode; ModRM and SIB; displacement; immediate. One that is absent is empty.
#[derive(Clone, Copy)]
pub enum Field<'a> {
    Prefixes(&'a [u8], usize),
    Head(&'a [u8], usize),
    Opcode(&'a [u8], usize),
    ModRm(&'a [u8], usize),
    Displacement(&'a [u8], usize),
    Immediate(&'a [u8], usize),
}
