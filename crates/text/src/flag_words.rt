// The words of a row's flags.
#![tactic(auto, using(crate::proofs::Words::word_decides))]

ghost use Rattle.std.specs.Prelude.{◌≡◌};
ghost use Rattle.text.specs.FlagWords.{flag_weight, width_named, flag_name, flag_value, flag_word};

use super::code_part::FlagPart;
use super::values::{bits_word, byte_word};
use super::word::Word;
use machine::CodeSize;
use numerals::Radix;
use record::Flag;

// the bit of a flag's word
fn flag_weight(word: &[u8]) -> Option<u32>
    ensures { result ≡ flag_weight word.now }
{
    match word {
        b"default64" => Some(Flag::DefaultOpSize64 as u32),
        b"fwait" => Some(Flag::Fwait as u32),
        b"m16_32" => Some(Flag::Bit16Or32 as u32),
        b"m64" => Some(Flag::Bit64 as u32),
        b"bcst" => Some(Flag::Broadcast as u32),
        b"round" => Some(Flag::RoundingControl as u32),
        b"sae" => Some(Flag::SuppressAllExceptions as u32),
        b"mask" => Some(Flag::OpMaskRegister as u32),
        b"zero" => Some(Flag::ZeroingMasking as u32),
        b"mask_required" => Some(Flag::RequireOpMaskRegister as u32),
        _ => None,
    }
}

// a width by its number of bits
fn width_named(word: &[u8]) -> Option<CodeSize>
    ensures { result ≡ width_named word.now }
{
    match word {
        b"16" => Some(CodeSize::Code16),
        b"32" => Some(CodeSize::Code32),
        b"64" => Some(CodeSize::Code64),
        _ => None,
    }
}

fn flag_name(flags: FlagPart, word: &[u8]) -> Option<FlagPart>
    ensures { result ≡ flag_name flags word.now }
{
    if let Some(width) = word.strip_prefix(b"op") {
        return Some(FlagPart {
            op_size: width_named(width)?,
            ..flags
        });
    }
    if let Some(width) = word.strip_prefix(b"addr") {
        return Some(FlagPart {
            addr_size: width_named(width)?,
            ..flags
        });
    }
    Some(FlagPart {
        bits: flags.bits | flag_weight(word)?,
        ..flags
    })
}

fn flag_value(flags: FlagPart, key: &[u8], arg: &[u8]) -> Option<FlagPart>
    ensures { result ≡ flag_value flags key.now arg.now }
{
    match key {
        b"bits" => Some(FlagPart {
            bits: flags.bits | bits_word(arg)?,
            ..flags
        }),
        b"n" => Some(FlagPart {
            n: byte_word(Radix::Decimal, arg)?,
            ..flags
        }),
        b"nb" => Some(FlagPart {
            nb: byte_word(Radix::Decimal, arg)?,
            ..flags
        }),
        _ => None,
    }
}

// the flags with one word more
pub(crate) fn flag_word(flags: FlagPart, word: Word) -> Option<FlagPart>
    ensures { result ≡ flag_word flags word.entry.key.now word.entry.mark word.entry.arg.now }
{
    match word.mark {
        None => flag_name(flags, word.key),
        Some(b'=') => flag_value(flags, word.key, word.arg),
        Some(_) => None,
    }
}
