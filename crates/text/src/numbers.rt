// The 61 numbers of a case line.
ghost use Rattle.std.specs.Prelude.{◌≡◌, ◌<◌, ◌≤◌, length, IfSome};
ghost use Rattle.text.specs.Line.{signed_before, piece_of, number_at, limit_of, start_from, item_of, numbers_of};
ghost use Rattle.text.specs.Fields.{nth};
ghost use Rattle.text.specs.Numbers.{byte_of, word_of, long_of, small_of, flag_of, kind_of, code_size_of};

use super::case_fault::CaseFault;
use machine::{Code, CodeSize, OpKind};
use numerals::{Radix, number_before};

// A number as it is written, below 2^64 with a sign. A type of its own: of a bare i128 the proof of `read` stayed open.
#[derive(Clone, Copy)]
pub(crate) struct Number(pub(crate) i128);

// All numbers of a line, as many as every line has.
#[derive(Clone, Copy)]
pub(crate) struct Numbers {
    all: [Number; 61],
}

// the number that the digits before the first space write, behind a minus or not, and how many digits they are
#[tactic(auto, unfolding(crate::specs::Line::signed_before))]
fn signed_before(text: &[u8], minus: bool) -> Option<(Number, usize)>
    ensures value { result ≡ signed_before minus text.now }
    ensures within { IfSome result (λ p. p.1 ≤ length text.now) }
{
    let (size, len) = number_before(Radix::Decimal, text, b' ')?;
    let size = i128::from(size);
    Some((Number(if minus { -size } else { size }), len))
}

// the number before the first space or the end of a text, a minus before it or not, and how many bytes it has
fn piece(text: &[u8]) -> Option<(Number, usize)>
    ensures value { result ≡ piece_of text.now }
    ensures within { IfSome result (λ p. p.1 ≤ length text.now) }
{
    match text {
        [] => None,
        [b'-', rest @ ..] => {
            let (number, len) = signed_before(rest, true)?;
            Some((number, 1 + len))
        }
        [_, ..] => signed_before(text, false),
    }
}

// the number that begins at a place and is ended by a space or by the line's end, and the place after it
#[tactic(auto, using(crate::proofs::Pieces::placed_some, crate::proofs::Pieces::placed_none))]
fn number_at(line: &[u8], from: usize) -> Option<(Number, usize)>
    requires { from ≤ length line.now }
    ensures { result ≡ number_at line.now from }
{
    let (number, len) = piece(&line[from..])?;
    Some((number, from + len))
}

// the largest number that can be held at a place after the number `last`; none where any number can
fn limit(place: u8, last: Number) -> Option<u64>
    ensures { result ≡ limit_of place last }
{
    match place {
        0 | 1 | 46 => Some(u64::MAX),
        7 => Some(2),
        11 | 47 => Some(0xFFFF_FFFF),
        12 | 13 => Some(3),
        14 | 39 | 40 | 41 | 57 | 58 | 59 => Some(1),
        22 | 25 | 28 | 31 | 34 => Some(12),
        23 | 26 | 29 | 32 | 35 if last.0 == 2 => Some(1),
        45 => Some(255),
        _ => None,
    }
}

// where the number begins that follows what ended at `at`
fn start(line: &[u8], at: usize, place: u8) -> Option<usize>
    ensures { result ≡ start_from line.now at place }
{
    if place == 0 {
        Some(0)
    } else if at < line.len() {
        Some(at + 1)
    } else {
        None
    }
}

// the number of a place, and where it ends
fn item(line: &[u8], at: usize, place: u8, last: Number) -> Result<(Number, usize), CaseFault>
    requires { place < 61 }
    ensures { result ≡ item_of line.now at place last }
{
    let from = start(line, at, place).ok_or(CaseFault::TooFew(place))?;
    let (number, end) = number_at(line, from).ok_or(CaseFault::NotNumber(place + 1))?;
    match limit(place, last) {
        Some(most) if number.0 < 0 || number.0 > i128::from(most) => Err(CaseFault::NotHeld(
            place + 1,
            most,
        )),
        _ => Ok((number, end)),
    }
}

impl Numbers {
    // the numbers of a line
    #[tactic(auto, using(crate::proofs::Filling::read_err, crate::proofs::Filling::read_more, crate::proofs::Filling::read_end))]
    pub(crate) fn read(line: &[u8]) -> Result<Numbers, CaseFault>
        ensures { result ≡ numbers_of line.now }
    {
        let mut last = Number(0);
        let mut all = [last; 61];
        let mut at = 0;
        // by number, since limits and faults go by it
        for place in 0..61u8 {
            let (number, end) = item(line, at, place, last)?;
            all[place as usize] = number;
            last = number;
            at = end;
        }
        if at < line.len() {
            return Err(CaseFault::TooMany);
        }
        Ok(Numbers { all })
    }

    // the number of a place
    pub(crate) fn at(&self, place: usize) -> Number
        requires { place < 61 }
        ensures { result.0 ≡ nth self.now place }
    {
        self.all[place]
    }
}

impl Number {
    // as a byte, 255 where none fits
    pub(crate) fn byte(self) -> u8
        ensures { result ≡ byte_of self.0 }
    {
        u8::try_from(self.0).unwrap_or(u8::MAX)
    }

    // as 32 bits, the largest where they do not fit
    pub(crate) fn word(self) -> u32
        ensures { result ≡ word_of self.0 }
    {
        u32::try_from(self.0).unwrap_or(u32::MAX)
    }

    // as 64 bits, the largest where they do not fit
    pub(crate) fn long(self) -> u64
        ensures { result ≡ long_of self.0 }
    {
        u64::try_from(self.0).unwrap_or(u64::MAX)
    }

    // as a signed byte, 127 where none fits
    pub(crate) fn small(self) -> i8
        ensures { result ≡ small_of self.0 }
    {
        i8::try_from(self.0).unwrap_or(i8::MAX)
    }

    // as a flag
    pub(crate) fn flag(self) -> bool
        ensures { result ≡ flag_of self.0 }
    {
        self.0 != 0
    }

    // as an operand kind, Register where it is none
    pub(crate) fn kind(self) -> OpKind
        ensures { result ≡ kind_of self.0 }
    {
        OpKind::from_number(self.byte()).unwrap_or(OpKind::Register)
    }

    // as a width, Unknown where it is none
    pub(crate) fn code_size(self) -> CodeSize
        ensures { result ≡ code_size_of self.0 }
    {
        CodeSize::from_number(self.byte()).unwrap_or(CodeSize::Unknown)
    }
}
