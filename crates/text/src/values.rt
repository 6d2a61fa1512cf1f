// Numbers as a word's argument.
ghost use Rattle.std.specs.Prelude.{◌≡◌};
ghost use Rattle.text.specs.Numbers.{signed_of};
ghost use Rattle.text.specs.Values.{whole_of, small_word};
ghost use Rattle.numerals.specs.declared.Radix.TheVariants.{Hexadecimal};

use numerals::{Radix, number};

// the byte that the whole text is
pub(crate) fn byte_word(radix: Radix, text: &[u8]) -> Option<u8>
    ensures { result ≡ whole_of radix text.now 255 }
{
    u8::try_from(number(radix, text)?).ok()
}

// the 32 bits that the whole text is in hexadecimal
pub(crate) fn bits_word(text: &[u8]) -> Option<u32>
    ensures { result ≡ whole_of Hexadecimal text.now 0xFFFFFFFF }
{
    u32::try_from(number(Radix::Hexadecimal, text)?).ok()
}

// the decimal number that the whole text is, a minus before it or not
pub(crate) fn signed(text: &[u8]) -> Option<i128>
    ensures { result ≡ signed_of text.now }
{
    match text {
        [b'-', digits @ ..] => Some(-i128::from(number(Radix::Decimal, digits)?)),
        _ => Some(i128::from(number(Radix::Decimal, text)?)),
    }
}

// the signed byte that the whole text is
pub(crate) fn small_word(text: &[u8]) -> Option<i8>
    ensures { result ≡ small_word text.now }
{
    i8::try_from(signed(text)?).ok()
}
