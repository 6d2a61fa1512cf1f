// The words of a row's operands.
#![tactic(auto, using(crate::proofs::Words::word_decides))]

ghost use Rattle.std.specs.Prelude.{◌≡◌, ◌<◌, length, IfSome, ◌==◌};
ghost use Rattle.std.specs.List.{position};
ghost use Rattle.text.specs.OperandWords.{range_named, range_numbers, range_word, kind_code, imm_kind, branch_kind, five, fixed_word, plain_op, ranged_op, branch_size, branch_op, imm_op, marked_op, operand_word};

use super::values::byte_word;
use super::word::Word;
use machine::{Code, OpKind, Register};
use numerals::Radix;
use record::{Op, RegisterRange};

// a bank of registers, of a vector bank the first 16 or all 32
fn range_named(word: &[u8]) -> Option<RegisterRange>
    ensures { result ≡ range_named word.now }
{
    match word {
        b"r8" => Some(RegisterRange { lo: 1, hi: 20 }),
        b"r16" => Some(RegisterRange { lo: 21, hi: 36 }),
        b"r32" => Some(RegisterRange { lo: 37, hi: 52 }),
        b"r64" => Some(RegisterRange { lo: 53, hi: 68 }),
        b"seg" => Some(RegisterRange { lo: 71, hi: 76 }),
        b"k" => Some(RegisterRange { lo: 173, hi: 180 }),
        b"xmm" => Some(RegisterRange { lo: 77, hi: 92 }),
        b"ymm" => Some(RegisterRange { lo: 109, hi: 124 }),
        b"zmm" => Some(RegisterRange { lo: 141, hi: 156 }),
        b"xmm32" => Some(RegisterRange { lo: 77, hi: 108 }),
        b"ymm32" => Some(RegisterRange { lo: 109, hi: 140 }),
        b"zmm32" => Some(RegisterRange { lo: 141, hi: 172 }),
        _ => None,
    }
}

// the place of the first `-`; on its own, since inside `range_numbers` the chain's goals stayed open
fn first_dash(word: &[u8]) -> Option<usize>
    ensures place { result ≡ position (λ b. b == 45) word.now }
    ensures within { IfSome result (λ at. at < length word.now) }
{
    word.iter().position(|byte| *byte == b'-')
}

// two register numbers with a `-` between them
fn range_numbers(word: &[u8]) -> Option<RegisterRange>
    ensures { result ≡ range_numbers word.now }
{
    let dash = first_dash(word)?;
    Some(RegisterRange {
        lo: byte_word(Radix::Decimal, &word[..dash])?,
        hi: byte_word(Radix::Decimal, &word[dash + 1..])?,
    })
}

fn range_word(word: &[u8]) -> Option<RegisterRange>
    ensures { result ≡ range_word word.now }
{
    range_named(word).or_else(|| range_numbers(word))
}

// any operand kind, by its number
fn kind_code(word: &[u8]) -> Option<OpKind>
    ensures { result ≡ kind_code word.now }
{
    OpKind::from_number(byte_word(Radix::Decimal, word)?)
}

// the kind that an immediate expects, by its word or as `#` and a number
fn imm_kind(word: &[u8]) -> Option<OpKind>
    ensures { result ≡ imm_kind word.now }
{
    match word {
        b"8" => Some(OpKind::Immediate8),
        b"8_2nd" => Some(OpKind::Immediate8Second),
        b"16" => Some(OpKind::Immediate16),
        b"32" => Some(OpKind::Immediate32),
        b"64" => Some(OpKind::Immediate64),
        b"8to16" => Some(OpKind::Immediate8to16),
        b"8to32" => Some(OpKind::Immediate8to32),
        b"8to64" => Some(OpKind::Immediate8to64),
        b"32to64" => Some(OpKind::Immediate32to64),
        [b'#', number @ ..] => kind_code(number),
        _ => None,
    }
}

// the kind that a branch expects, by its word or as `#` and a number
fn branch_kind(word: &[u8]) -> Option<OpKind>
    ensures { result ≡ branch_kind word.now }
{
    match word {
        b"16" => Some(OpKind::NearBranch16),
        b"32" => Some(OpKind::NearBranch32),
        b"64" => Some(OpKind::NearBranch64),
        [b'#', number @ ..] => kind_code(number),
        _ => None,
    }
}

// a name of two to five bytes, filled up with zeros
fn five(word: &[u8]) -> Option<[u8; 5]>
    ensures { result ≡ five word.now }
{
    if word.len() < 2 || word.len() > 5 {
        return None;
    }
    let mut name = [0; 5];
    name[..word.len()].copy_from_slice(word);
    Some(name)
}

// a register by its name, or by its number
fn fixed_word(word: &[u8]) -> Option<u8>
    ensures { result ≡ fixed_word word.now }
{
    match five(word).and_then(Register::from_name) {
        Some(register) => Some(register.number),
        None => byte_word(Radix::Decimal, word),
    }
}

// an operand without an argument
fn plain_op(word: &[u8]) -> Option<Op>
    ensures { result ≡ plain_op word.now }
{
    match word {
        b"mem" => Some(Op::ModRmRmMemOnly(false)),
        b"mem_sib" => Some(Op::ModRmRmMemOnly(true)),
        b"moffs" => Some(Op::O),
        b"iq" => Some(Op::Iq),
        _ => None,
    }
}

// an operand over a range of registers
fn ranged_op(key: &[u8], range: RegisterRange) -> Option<Op>
    ensures { result ≡ ranged_op key.now range }
{
    match key {
        b"rm" => Some(Op::ModRmRm(range)),
        b"vsib" => Some(Op::Vsib(range)),
        b"reg" => Some(Op::ModRmReg(range)),
        b"embed" => Some(Op::RegEmbed8(range)),
        b"vvvv" => Some(Op::Hx(range)),
        _ => None,
    }
}

// the size of a branch's displacement, by its word or as `j` and a number
fn branch_size(key: &[u8]) -> Option<u8>
    ensures { result ≡ branch_size key.now }
{
    match key {
        b"rel8" => Some(1),
        b"rel16" => Some(2),
        b"rel32" => Some(4),
        [b'j', size @ ..] => byte_word(Radix::Decimal, size),
        _ => None,
    }
}

fn branch_op(key: &[u8], arg: &[u8]) -> Option<Op>
    ensures { result ≡ branch_op key.now arg.now }
{
    let size = branch_size(key)?;
    Some(Op::J(branch_kind(arg)?, size))
}

fn imm_op(key: &[u8], arg: &[u8]) -> Option<Op>
    ensures { result ≡ imm_op key.now arg.now }
{
    match key {
        b"ib" => Some(Op::Ib(imm_kind(arg)?)),
        b"id" => Some(Op::Id(imm_kind(arg)?)),
        _ => None,
    }
}

// an operand with an argument
fn marked_op(key: &[u8], arg: &[u8]) -> Option<Op>
    ensures { result ≡ marked_op key.now arg.now }
{
    if key == b"fixed".as_slice() {
        return fixed_word(arg).map(Op::Reg);
    }
    if let Some(range) = range_word(arg) {
        return ranged_op(key, range);
    }
    branch_op(key, arg).or_else(|| imm_op(key, arg))
}

// the operand of a word
pub(crate) fn operand_word(word: Word) -> Option<Op>
    ensures { result ≡ operand_word word.entry.key.now word.entry.mark word.entry.arg.now }
{
    match word.mark {
        None => plain_op(word.key),
        Some(b':') => marked_op(word.key, word.arg),
        Some(_) => None,
    }
}
