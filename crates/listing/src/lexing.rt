// The next thing on a line.
ghost use Rattle.std.specs.Prelude.{◌≡◌, ◌+◌, ◌<◌, ◌≤◌, length, IfSome};
ghost use Rattle.listing.specs.Tokens.{word_byte, blank_byte, mark_of, mask_of};

use super::digits::number;
use super::names::register;
use super::token::{Decoration, Mark, Token};
use machine::{Bank, Code, Opmask, RoundingControl};

fn in_word(byte: u8) -> bool
    ensures { result ≡ word_byte byte }
{
    byte.is_ascii_alphanumeric() || byte == b'_'
}

fn blank(byte: u8) -> bool
    ensures { result ≡ blank_byte byte }
{
    matches!(byte, b' ' | b'\t' | b'\r' | b'\n')
}

// the bytes of a kind that a line begins with, and the rest of it
fn run<F: Fn(u8) -> bool>(line: &[u8], of_kind: F) -> (&[u8], &[u8])
    requires { F.IsAlwaysCallable of_kind }
    ensures { length result.0.now + length result.1.now ≡ length line.now }
{
    let end = line.iter().take_while(|byte| of_kind(**byte)).count();
    line.split_at(end)
}

// a line without the blanks that it begins with
pub(crate) fn after_blanks(line: &[u8]) -> &[u8]
    ensures { length result.now ≤ length line.now }
{
    run(line, blank).1
}

fn mark(byte: u8) -> Option<Mark>
    ensures { result ≡ mark_of byte }
{
    match byte {
        b'[' => Some(Mark::Open),
        b']' => Some(Mark::Close),
        b'+' => Some(Mark::Plus),
        b'-' => Some(Mark::Minus),
        b'*' => Some(Mark::Times),
        b',' => Some(Mark::Comma),
        b':' => Some(Mark::Colon),
        b'/' => Some(Mark::Slash),
        _ => None,
    }
}

fn decoration(word: &[u8]) -> Option<Decoration> {
    match word {
        b"z" => Some(Decoration::Zeroing),
        b"bcst" => Some(Decoration::Broadcast),
        b"sae" => Some(Decoration::Sae),
        b"rn" => Some(Decoration::Rounding(RoundingControl::ToNearest)),
        b"rd" => Some(Decoration::Rounding(RoundingControl::Down)),
        b"ru" => Some(Decoration::Rounding(RoundingControl::Up)),
        b"rz" => Some(Decoration::Rounding(RoundingControl::TowardZero)),
        _ => mask(word),
    }
}

// K1 to K7
fn mask(word: &[u8]) -> Option<Decoration>
    ensures { result ≡ mask_of word.now }
{
    let register = register(word)?;
    if !matches!(register.bank(), Some(Bank::Mask)) {
        return None;
    }
    match register.index() {
        0 => None,
        number => Opmask::from_number(number).map(Decoration::Mask),
    }
}

fn word_token(word: &[u8]) -> Option<Token> {
    if let Some(number) = number(word) {
        return Some(Token::Number(number));
    }
    if let Some(register) = register(word) {
        return Some(Token::Register(register));
    }
    match word {
        b"mode" => Some(Token::Mode),
        b"at" => Some(Token::At),
        b"byte" | b"word" | b"dword" | b"qword" => Some(Token::Size),
        b"xmmword" | b"ymmword" | b"zmmword" | b"ptr" => Some(Token::Size),
        _ => None,
    }
}

// what stands in braces, behind the one that opens, and the rest of the line
fn braced(line: &[u8]) -> Option<(Token, &[u8])>
    ensures { IfSome result (λ p. length p.1.now ≤ length line.now) }
{
    let (word, rest) = run(line, in_word);
    let rest = rest.strip_prefix(b"}")?;
    Some((Token::Decoration(decoration(word)?), rest))
}

// the token that a line begins with, and the rest of the line
pub(crate) fn next_token(line: &[u8]) -> Option<(Token, &[u8])>
    ensures { IfSome result (λ p. length p.1.now < length line.now) }
{
    let (first, rest) = line.split_first()?;
    if *first == b'{' {
        return braced(rest);
    }
    if let Some(mark) = mark(*first) {
        return Some((Token::Mark(mark), rest));
    }
    let (word, rest) = run(line, in_word);
    if word.is_empty() {
        return None;
    }
    Some((word_token(word)?, rest))
}
