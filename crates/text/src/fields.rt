// The parts of a case by the places of their numbers.
ghost use Rattle.std.specs.Prelude.{◌≡◌, ◌≤◌};
ghost use Rattle.text.specs.Fields.{settings_of, legacy_of, vex_of, evex_of, head_of, range_of, operand_of, operands_of, record_of, instruction_of, case_of, parse_of};

use super::case::Case;
use super::case_fault::CaseFault;
use super::numbers::Numbers;
use instruction::{RawInstruction, RawSettings};
use record::{
    EncFlags3, EvexHead, Head, LegacyHead, Op, Operands, RawRecord, RegisterRange, VexHead,
};

impl Numbers {
    fn settings(&self) -> RawSettings
        ensures { result ≡ settings_of self.now }
    {
        RawSettings {
            prevent_vex2: self.at(2).byte(),
            vex_wig: self.at(3).byte(),
            vex_lig: self.at(4).byte(),
            evex_wig: self.at(5).byte(),
            evex_lig: self.at(6).byte(),
        }
    }

    fn legacy(&self) -> LegacyHead
        ensures { result ≡ legacy_of self.now }
    {
        LegacyHead {
            table_byte1: self.at(17).byte(),
            table_byte2: self.at(18).byte(),
            mandatory_prefix: self.at(19).byte(),
        }
    }

    fn vex(&self) -> VexHead
        ensures { result ≡ vex_of self.now }
    {
        VexHead {
            table: self.at(17).byte(),
            last_byte: self.at(18).byte(),
            mask_w_l: self.at(19).byte(),
            mask_l: self.at(20).byte(),
            w1: self.at(21).flag(),
        }
    }

    fn evex(&self) -> EvexHead
        ensures { result ≡ evex_of self.now }
    {
        EvexHead {
            table: self.at(17).byte(),
            p1_bits: self.at(18).byte(),
            ll_bits: self.at(19).byte(),
            mask_w: self.at(20).byte(),
            mask_ll: self.at(21).byte(),
        }
    }

    fn head(&self) -> Head
        ensures { result ≡ head_of self.now }
    {
        match self.at(7).long() {
            0 => Head::Legacy(self.legacy()),
            1 => Head::Vex(self.vex()),
            _ => Head::Evex(self.evex()),
        }
    }

    // the two ends of a range from a place on
    fn range(&self, place: usize) -> RegisterRange
        requires { place ≤ 59 }
        ensures { result ≡ range_of self.now place }
    {
        RegisterRange {
            lo: self.at(place).byte(),
            hi: self.at(place + 1).byte(),
        }
    }

    // the operand whose kind stands at a place
    fn operand(&self, place: usize) -> Option<Op>
        requires { place ≤ 58 }
        ensures { result ≡ operand_of self.now place }
    {
        match self.at(place).long() {
            1 => Some(Op::ModRmRm(self.range(place + 1))),
            2 => Some(Op::ModRmRmMemOnly(self.at(place + 1).flag())),
            3 => Some(Op::Vsib(self.range(place + 1))),
            4 => Some(Op::O),
            5 => Some(Op::ModRmReg(self.range(place + 1))),
            6 => Some(Op::RegEmbed8(self.range(place + 1))),
            7 => Some(Op::Reg(self.at(place + 1).byte())),
            8 => Some(Op::Hx(self.range(place + 1))),
            9 => Some(Op::Ib(self.at(place + 1).kind())),
            10 => Some(Op::Id(self.at(place + 1).kind())),
            11 => Some(Op::Iq),
            12 => Some(Op::J(self.at(place + 1).kind(), self.at(place + 2).byte())),
            _ => None,
        }
    }

    fn operands(&self) -> Operands
        ensures { result ≡ operands_of self.now }
    {
        Operands {
            op0: self.operand(22),
            op1: self.operand(25),
            op2: self.operand(28),
            op3: self.operand(31),
            op4: self.operand(34),
        }
    }

    fn raw_record(&self) -> RawRecord
        ensures { result ≡ record_of self.now }
    {
        RawRecord {
            head: self.head(),
            op_code: self.at(8).word(),
            group_index: self.at(9).small(),
            rm_group_index: self.at(10).small(),
            enc_flags3: EncFlags3 {
                bits: self.at(11).word(),
            },
            op_size: self.at(12).code_size(),
            addr_size: self.at(13).code_size(),
            is_2byte_opcode: self.at(14).flag(),
            n: self.at(15).byte(),
            nb: self.at(16).byte(),
            operands: self.operands(),
        }
    }

    fn raw_instruction(&self) -> RawInstruction
        ensures { result ≡ instruction_of self.now }
    {
        RawInstruction {
            code_size: self.at(37).byte(),
            segment: self.at(38).byte(),
            lock: self.at(39).flag(),
            repe: self.at(40).flag(),
            repne: self.at(41).flag(),
            base: self.at(42).byte(),
            index: self.at(43).byte(),
            scale: self.at(44).byte(),
            displ_size: self.at(45).byte(),
            mem_displ: self.at(46).long(),
            immediate: self.at(47).word(),
            kind0: self.at(48).byte(),
            kind1: self.at(49).byte(),
            kind2: self.at(50).byte(),
            kind3: self.at(51).byte(),
            reg0: self.at(52).byte(),
            reg1: self.at(53).byte(),
            reg2: self.at(54).byte(),
            reg3: self.at(55).byte(),
            opmask: self.at(56).byte(),
            zeroing: self.at(57).flag(),
            broadcast: self.at(58).flag(),
            sae: self.at(59).flag(),
            rounding: self.at(60).byte(),
        }
    }
}

impl Case {
    // the case that 61 numbers stand for
    pub(crate) fn from_numbers(numbers: &Numbers) -> Case
        ensures { result ≡ case_of numbers.now }
    {
        Case {
            mode: numbers.at(0).long(),
            rip: numbers.at(1).long(),
            settings: numbers.settings(),
            record: numbers.raw_record(),
            instruction: numbers.raw_instruction(),
        }
    }

    // the case of a line of 61 decimal numbers with single spaces
    pub fn parse(line: &[u8]) -> Result<Case, CaseFault>
        ensures { result ≡ parse_of line.now }
    {
        let numbers = Numbers::read(line)?;
        Ok(Case::from_numbers(&numbers))
    }
}
