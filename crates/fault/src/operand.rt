use std::fmt;

// What an operand is refused for: layer 2, the numbers 3 to 33.
#[derive(Clone, Copy)]
pub enum OperandFault {
    OpKind = 3,
    FixedRegister = 4,
    RegisterRange = 5,
    RegisterNotAllowed = 6,
    NeitherRegisterNorMemory = 7,
    AbsoluteRegisters = 8,
    AbsoluteScale = 9,
    Absolute16In64 = 10,
    DisplacementU16 = 11,
    DisplacementU32 = 12,
    Absolute64Outside64 = 13,
    AbsoluteSize = 14,
    Vsib16 = 15,
    Address16In64 = 16,
    Registers16 = 17,
    Displacement16 = 18,
    DisplacementNotZero = 19,
    DisplacementI8 = 20,
    Size16 = 21,
    Address64Outside64 = 22,
    Size = 23,
    RipIndex = 24,
    RipScale = 25,
    RipOutside64 = 26,
    RipWithSib = 27,
    EipTarget = 28,
    DisplacementI32 = 29,
    Displacement32 = 30,
    VsibOffsetOnly = 31,
    SizeOfAddress = 32,
    StackPointerIndex = 33,
}

// what is wrong, and what was expected
impl fmt::Display for OperandFault {
    fn fmt<W: fmt::Write>(&self, f: &mut fmt::Formatter<W>) -> fmt::Result {
        f.write_str(match self {
            Self::OpKind => "the operand's kind is not the kind that the record expects",
            Self::FixedRegister => "the register is not the one register that the record allows",
            Self::RegisterRange =>
                "the register is outside the range that the record, mode and address size allow",
            Self::RegisterNotAllowed => "a register stands where the record wants memory",
            Self::NeitherRegisterNorMemory => "the operand is neither a register nor memory",
            Self::AbsoluteRegisters =>
                "an absolute address has a base or an index; it may have neither",
            Self::AbsoluteScale => "an absolute address has a scale; it has to be 1",
            Self::Absolute16In64 =>
                "a 16-bit absolute address is used in mode 64; 32 or 64 bits are expected",
            Self::DisplacementU16 =>
                "the displacement of a 16-bit address without base does not fit in 16 unsigned bits",
            Self::DisplacementU32 =>
                "the displacement of a 32-bit absolute address does not fit in 32 unsigned bits",
            Self::Absolute64Outside64 => "a 64-bit absolute address is used outside mode 64",
            Self::AbsoluteSize => "the displacement size of an absolute address is not 2, 4 or 8",
            Self::Vsib16 =>
                "a vector index is used with 16-bit addressing; 32 or 64 bits are expected",
            Self::Address16In64 => "16-bit addressing is used in mode 64",
            Self::Registers16 =>
                "the base and index are no pair of 16-bit addressing: BX or BP, with SI or DI or alone, or SI or DI alone",
            Self::Displacement16 =>
                "the displacement of a 16-bit address does not fit in 16 bits, signed or unsigned",
            Self::DisplacementNotZero => "the displacement size is 0 and the displacement is not",
            Self::DisplacementI8 => "the displacement does not fit in a signed byte",
            Self::Size16 => "the displacement size of a 16-bit address is not 0, 1 or 2",
            Self::Address64Outside64 => "64-bit addressing is used outside mode 64",
            Self::Size => "the displacement size is not 0, 1, 4 or 8",
            Self::RipIndex => "a RIP or EIP relative address has an index; it may have none",
            Self::RipScale => "a RIP or EIP relative address has a scale; it has to be 1",
            Self::RipOutside64 => "a RIP or EIP relative address is used outside mode 64",
            Self::RipWithSib =>
                "a RIP or EIP relative address is used where the record wants a SIB byte",
            Self::EipTarget => "the target of an EIP relative address does not fit in 32 bits",
            Self::DisplacementI32 =>
                "the displacement of a 64-bit address does not fit in 32 signed bits",
            Self::Displacement32 =>
                "the displacement of a 32-bit address does not fit in 32 bits, signed or unsigned",
            Self::VsibOffsetOnly =>
                "an address with a vector index has neither base nor index; it needs one",
            Self::SizeOfAddress =>
                "the displacement size is neither 0 nor 1 nor that of the address",
            Self::StackPointerIndex => "ESP or RSP is the index; it cannot be one",
        })
    }
}
