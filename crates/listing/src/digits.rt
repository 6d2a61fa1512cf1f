// Numbers: decimal, or 0x and hexadecimal.
ghost use Rattle.std.specs.Prelude.{◌≡◌};
ghost use Rattle.listing.specs.Digits.{number_of};

use numerals::Radix;

// the number that the whole word is
pub(crate) fn number(word: &[u8]) -> Option<u64>
    ensures { result ≡ number_of word.now }
{
    match word {
        [b'0', b'x' | b'X', digits @ ..] => numerals::number(Radix::Hexadecimal, digits),
        _ => numerals::number(Radix::Decimal, word),
    }
}
