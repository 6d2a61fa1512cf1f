// Whole numbers written as digits.
#![tactic(auto)]

ghost use Rattle.std.specs.Prelude.{◌≡◌};
ghost use Rattle.numerals.specs.Numbers.{base, number_of, written, number_before};

// The digits that a number is written with.
#[derive(Clone, Copy)]
pub enum Radix {
    Decimal = 10,
    Hexadecimal = 16,
}

impl Radix {
    fn base(self) -> u32
        ensures { result ≡ base self }
    {
        self as u32
    }
}

// the number below 2^64 that the whole text is, one digit or more
pub fn number(radix: Radix, text: &[u8]) -> Option<u64>
    ensures { result ≡ number_of radix text.now }
{
    if text.is_empty() {
        return None;
    }
    let base = radix.base();
    let mut value = 0u64;
    for byte in text {
        let digit = (*byte as char).to_digit(base)?;
        value = value.checked_mul(base as u64)?.checked_add(digit as u64)?;
    }
    Some(value)
}

// a number and its count of digits, none where there are none
fn written(number: u64, count: usize) -> Option<(u64, usize)>
    ensures { result ≡ written number count }
{
    (count > 0).then_some((number, count))
}

// the number below 2^64 that the bytes before the first `end` are, or all where there is none, and how many they are: one
// digit or more. What can be no part of a number is read no further.
pub fn number_before(radix: Radix, text: &[u8], end: u8) -> Option<(u64, usize)>
    ensures { result ≡ number_before radix text.now end }
{
    let base = radix.base();
    let mut sum = 0u64;
    let mut count = 0usize;
    for byte in text {
        if *byte == end {
            return written(sum, count);
        }
        let digit = (*byte as char).to_digit(base)?;
        sum = sum.checked_mul(base as u64)?.checked_add(digit as u64)?;
        count += 1;
    }
    written(sum, count)
}
