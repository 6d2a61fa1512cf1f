// The words of a row's opcode.
#![tactic(auto, using(crate::proofs::Words::word_decides))]

ghost use Rattle.std.specs.Prelude.{◌≡◌};
ghost use Rattle.text.specs.CodeWords.{code_named, code_word};

use super::code_part::CodePart;
use super::values::{bits_word, small_word};
use super::word::Word;

// an opcode in hexadecimal; four digits are two bytes
pub(crate) fn code_named(word: &[u8]) -> Option<CodePart>
    ensures { result ≡ code_named word.now }
{
    Some(CodePart {
        op_code: bits_word(word)?,
        is_2byte: word.len() == 4,
        group: -1,
        rm_group: -1,
    })
}

// an opcode with one word more
pub(crate) fn code_word(code: CodePart, word: Word) -> Option<CodePart>
    ensures { result ≡ code_word code word.entry.key.now word.entry.mark word.entry.arg.now }
{
    match (word.mark, word.key) {
        (None, b"2byte") => Some(CodePart {
            is_2byte: true,
            ..code
        }),
        (Some(b'/'), b"") => Some(CodePart {
            group: small_word(word.arg)?,
            ..code
        }),
        (Some(b'='), b"rm") => Some(CodePart {
            rm_group: small_word(word.arg)?,
            ..code
        }),
        _ => None,
    }
}
