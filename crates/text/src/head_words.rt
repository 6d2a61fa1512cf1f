// The words of a row's head.
#![tactic(auto, using(crate::proofs::Words::word_decides))]

ghost use Rattle.std.specs.Prelude.{◌≡◌};
ghost use Rattle.text.specs.HeadWords.{head_named, legacy_byte, legacy_word, vex_word, evex_word, head_word};

use super::values::byte_word;
use super::word::Word;
use numerals::Radix;
use record::{EvexHead, Head, LegacyHead, VexHead};

// a head by its first word, with nothing said of it yet
pub(crate) fn head_named(word: &[u8]) -> Option<Head>
    ensures { result ≡ head_named word.now }
{
    match word {
        b"legacy" => Some(Head::Legacy(LegacyHead::default())),
        b"vex" => Some(Head::Vex(VexHead::default())),
        b"evex" => Some(Head::Evex(EvexHead::default())),
        _ => None,
    }
}

// a legacy head with one of its usual bytes, which goes where it belongs
fn legacy_byte(head: LegacyHead, byte: u8) -> Option<LegacyHead>
    ensures { result ≡ legacy_byte head byte }
{
    match byte {
        0x0F => Some(LegacyHead {
            table_byte1: byte,
            ..head
        }),
        0x38 | 0x3A => Some(LegacyHead {
            table_byte2: byte,
            ..head
        }),
        0x66 | 0xF2 | 0xF3 => Some(LegacyHead {
            mandatory_prefix: byte,
            ..head
        }),
        _ => None,
    }
}

fn legacy_word(head: LegacyHead, word: Word) -> Option<LegacyHead>
    ensures { result ≡ legacy_word head word.entry.key.now word.entry.mark word.entry.arg.now }
{
    let byte = || byte_word(Radix::Hexadecimal, word.arg);
    match (word.mark, word.key) {
        (None, key) => legacy_byte(head, byte_word(Radix::Hexadecimal, key)?),
        (Some(b'='), b"table1") => Some(LegacyHead {
            table_byte1: byte()?,
            ..head
        }),
        (Some(b'='), b"table2") => Some(LegacyHead {
            table_byte2: byte()?,
            ..head
        }),
        (Some(b'='), b"prefix") => Some(LegacyHead {
            mandatory_prefix: byte()?,
            ..head
        }),
        _ => None,
    }
}

fn vex_word(head: VexHead, word: Word) -> Option<VexHead>
    ensures { result ≡ vex_word head word.entry.key.now word.entry.mark word.entry.arg.now }
{
    let byte = || byte_word(Radix::Hexadecimal, word.arg);
    match (word.mark, word.key) {
        (None, b"w1") => Some(VexHead { w1: true, ..head }),
        (Some(b'='), b"table") => Some(VexHead {
            table: byte()?,
            ..head
        }),
        (Some(b'='), b"last") => Some(VexHead {
            last_byte: byte()?,
            ..head
        }),
        (Some(b'='), b"mask_w_l") => Some(VexHead {
            mask_w_l: byte()?,
            ..head
        }),
        (Some(b'='), b"mask_l") => Some(VexHead {
            mask_l: byte()?,
            ..head
        }),
        _ => None,
    }
}

fn evex_word(head: EvexHead, word: Word) -> Option<EvexHead>
    ensures { result ≡ evex_word head word.entry.key.now word.entry.mark word.entry.arg.now }
{
    let byte = || byte_word(Radix::Hexadecimal, word.arg);
    match (word.mark, word.key) {
        (Some(b'='), b"table") => Some(EvexHead {
            table: byte()?,
            ..head
        }),
        (Some(b'='), b"p1") => Some(EvexHead {
            p1_bits: byte()?,
            ..head
        }),
        (Some(b'='), b"ll") => Some(EvexHead {
            ll_bits: byte()?,
            ..head
        }),
        (Some(b'='), b"mask_w") => Some(EvexHead {
            mask_w: byte()?,
            ..head
        }),
        (Some(b'='), b"mask_ll") => Some(EvexHead {
            mask_ll: byte()?,
            ..head
        }),
        _ => None,
    }
}

// a head with one word more
pub(crate) fn head_word(head: Head, word: Word) -> Option<Head>
    ensures { result ≡ head_word head word.entry.key.now word.entry.mark word.entry.arg.now }
{
    match head {
        Head::Legacy(head) => legacy_word(head, word).map(Head::Legacy),
        Head::Vex(head) => vex_word(head, word).map(Head::Vex),
        Head::Evex(head) => evex_word(head, word).map(Head::Evex),
    }
}
