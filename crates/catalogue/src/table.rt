// The built-in table: ten records, by number.
ghost use Rattle.std.specs.Prelude.{◌≡◌, slice_get};
ghost use Rattle.catalogue.specs.Built.{built_rows};

use machine::{CodeSize, OpKind};
use record::{
    EncFlags3, EvexHead, Head, LegacyHead, Op, Operands, RawRecord, RegisterRange, VexHead,
};

static TABLE: [RawRecord; 10] = [
    // 0: MOV r32,r/m32 (8B /r)
    RawRecord {
        head: Head::Legacy(LegacyHead {
            table_byte1: 0x00,
            table_byte2: 0x00,
            mandatory_prefix: 0x00,
        }),
        op_code: 0x8B,
        group_index: -1,
        rm_group_index: -1,
        enc_flags3: EncFlags3 { bits: 0x30000 },
        op_size: CodeSize::Code32,
        addr_size: CodeSize::Unknown,
        is_2byte_opcode: false,
        n: 1,
        nb: 1,
        operands: Operands {
            op0: Some(Op::ModRmReg(RegisterRange { lo: 37, hi: 52 })),
            op1: Some(Op::ModRmRm(RegisterRange { lo: 37, hi: 52 })),
            op2: None,
            op3: None,
            op4: None,
        },
    },
    // 1: MOV r64,r/m64
    RawRecord {
        head: Head::Legacy(LegacyHead {
            table_byte1: 0x00,
            table_byte2: 0x00,
            mandatory_prefix: 0x00,
        }),
        op_code: 0x8B,
        group_index: -1,
        rm_group_index: -1,
        enc_flags3: EncFlags3 { bits: 0x20000 },
        op_size: CodeSize::Code64,
        addr_size: CodeSize::Unknown,
        is_2byte_opcode: false,
        n: 1,
        nb: 1,
        operands: Operands {
            op0: Some(Op::ModRmReg(RegisterRange { lo: 53, hi: 68 })),
            op1: Some(Op::ModRmRm(RegisterRange { lo: 53, hi: 68 })),
            op2: None,
            op3: None,
            op4: None,
        },
    },
    // 2: MOV r8,r/m8 (8A /r)
    RawRecord {
        head: Head::Legacy(LegacyHead {
            table_byte1: 0x00,
            table_byte2: 0x00,
            mandatory_prefix: 0x00,
        }),
        op_code: 0x8A,
        group_index: -1,
        rm_group_index: -1,
        enc_flags3: EncFlags3 { bits: 0x30000 },
        op_size: CodeSize::Unknown,
        addr_size: CodeSize::Unknown,
        is_2byte_opcode: false,
        n: 1,
        nb: 1,
        operands: Operands {
            op0: Some(Op::ModRmReg(RegisterRange { lo: 1, hi: 20 })),
            op1: Some(Op::ModRmRm(RegisterRange { lo: 1, hi: 20 })),
            op2: None,
            op3: None,
            op4: None,
        },
    },
    // 3: ADD r/m32,imm8 (83 /0)
    RawRecord {
        head: Head::Legacy(LegacyHead {
            table_byte1: 0x00,
            table_byte2: 0x00,
            mandatory_prefix: 0x00,
        }),
        op_code: 0x83,
        group_index: 0,
        rm_group_index: -1,
        enc_flags3: EncFlags3 { bits: 0x30000 },
        op_size: CodeSize::Code32,
        addr_size: CodeSize::Unknown,
        is_2byte_opcode: false,
        n: 1,
        nb: 1,
        operands: Operands {
            op0: Some(Op::ModRmRm(RegisterRange { lo: 37, hi: 52 })),
            op1: Some(Op::Ib(OpKind::Immediate8to32)),
            op2: None,
            op3: None,
            op4: None,
        },
    },
    // 4: JMP rel8 in mode 64 (EB)
    RawRecord {
        head: Head::Legacy(LegacyHead {
            table_byte1: 0x00,
            table_byte2: 0x00,
            mandatory_prefix: 0x00,
        }),
        op_code: 0xEB,
        group_index: -1,
        rm_group_index: -1,
        enc_flags3: EncFlags3 { bits: 0x20000 },
        op_size: CodeSize::Unknown,
        addr_size: CodeSize::Unknown,
        is_2byte_opcode: false,
        n: 1,
        nb: 1,
        operands: Operands {
            op0: Some(Op::J(OpKind::NearBranch64, 1)),
            op1: None,
            op2: None,
            op3: None,
            op4: None,
        },
    },
    // 5: MOV r64,imm64 (B8+)
    RawRecord {
        head: Head::Legacy(LegacyHead {
            table_byte1: 0x00,
            table_byte2: 0x00,
            mandatory_prefix: 0x00,
        }),
        op_code: 0xB8,
        group_index: -1,
        rm_group_index: -1,
        enc_flags3: EncFlags3 { bits: 0x20000 },
        op_size: CodeSize::Code64,
        addr_size: CodeSize::Unknown,
        is_2byte_opcode: false,
        n: 1,
        nb: 1,
        operands: Operands {
            op0: Some(Op::RegEmbed8(RegisterRange { lo: 53, hi: 68 })),
            op1: Some(Op::Iq),
            op2: None,
            op3: None,
            op4: None,
        },
    },
    // 6: VADDPS ymm,ymm,ymm/m256
    RawRecord {
        head: Head::Vex(VexHead {
            table: 1,
            last_byte: 0x04,
            mask_w_l: 0x80,
            mask_l: 0x00,
            w1: false,
        }),
        op_code: 0x58,
        group_index: -1,
        rm_group_index: -1,
        enc_flags3: EncFlags3 { bits: 0x30000 },
        op_size: CodeSize::Unknown,
        addr_size: CodeSize::Unknown,
        is_2byte_opcode: false,
        n: 1,
        nb: 1,
        operands: Operands {
            op0: Some(Op::ModRmReg(RegisterRange { lo: 109, hi: 124 })),
            op1: Some(Op::Hx(RegisterRange { lo: 109, hi: 124 })),
            op2: Some(Op::ModRmRm(RegisterRange { lo: 109, hi: 124 })),
            op3: None,
            op4: None,
        },
    },
    // 7: VADDPS zmm{k}{z},zmm,zmm/m512/m32bcst{er}
    RawRecord {
        head: Head::Evex(EvexHead {
            table: 1,
            p1_bits: 0x04,
            ll_bits: 0x40,
            mask_w: 0x00,
            mask_ll: 0x00,
        }),
        op_code: 0x58,
        group_index: -1,
        rm_group_index: -1,
        enc_flags3: EncFlags3 { bits: 0x6C030000 },
        op_size: CodeSize::Unknown,
        addr_size: CodeSize::Unknown,
        is_2byte_opcode: false,
        n: 64,
        nb: 4,
        operands: Operands {
            op0: Some(Op::ModRmReg(RegisterRange { lo: 141, hi: 172 })),
            op1: Some(Op::Hx(RegisterRange { lo: 141, hi: 172 })),
            op2: Some(Op::ModRmRm(RegisterRange { lo: 141, hi: 172 })),
            op3: None,
            op4: None,
        },
    },
    // 8: VPGATHERDD zmm{k},vm32z
    RawRecord {
        head: Head::Evex(EvexHead {
            table: 2,
            p1_bits: 0x05,
            ll_bits: 0x40,
            mask_w: 0x00,
            mask_ll: 0x00,
        }),
        op_code: 0x90,
        group_index: -1,
        rm_group_index: -1,
        enc_flags3: EncFlags3 { bits: 0xA0030000 },
        op_size: CodeSize::Unknown,
        addr_size: CodeSize::Unknown,
        is_2byte_opcode: false,
        n: 4,
        nb: 4,
        operands: Operands {
            op0: Some(Op::ModRmReg(RegisterRange { lo: 141, hi: 172 })),
            op1: Some(Op::Vsib(RegisterRange { lo: 141, hi: 172 })),
            op2: None,
            op3: None,
            op4: None,
        },
    },
    // 9: MOV EAX,moffs32 (A1)
    RawRecord {
        head: Head::Legacy(LegacyHead {
            table_byte1: 0x00,
            table_byte2: 0x00,
            mandatory_prefix: 0x00,
        }),
        op_code: 0xA1,
        group_index: -1,
        rm_group_index: -1,
        enc_flags3: EncFlags3 { bits: 0x30000 },
        op_size: CodeSize::Code32,
        addr_size: CodeSize::Unknown,
        is_2byte_opcode: false,
        n: 1,
        nb: 1,
        operands: Operands {
            op0: Some(Op::Reg(37)),
            op1: Some(Op::O),
            op2: None,
            op3: None,
            op4: None,
        },
    },
];

fn rows() -> &'static [RawRecord]
    ensures { result.now ≡ built_rows }
{
    &TABLE
}

// the row of a number
pub(crate) fn row(number: u16) -> Option<RawRecord>
    ensures { result ≡ slice_get built_rows number }
{
    rows().get(number as usize).copied()
}
