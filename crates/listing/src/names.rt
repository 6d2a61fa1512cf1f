// Register names.
ghost use Rattle.std.specs.Prelude.{◌≡◌};
ghost use Rattle.listing.specs.Making.{place_of, padded_of, named_of};

use machine::Register;
use std::array;

// the byte at a place in upper case, 0 after the end
fn place(word: &[u8], at: usize) -> u8
    ensures { result ≡ place_of word.now at }
{
    word.get(at).map_or(0, |byte| byte.to_ascii_uppercase())
}

// a word in upper case, filled up with zeros to five places
fn padded(word: &[u8]) -> [u8; 5]
    ensures { result ≡ padded_of word.now }
{
    array::from_fn(|at| place(word, at))
}

// the register with this name, in upper or lower case
pub(crate) fn register(word: &[u8]) -> Option<Register>
    ensures { result ≡ named_of word.now }
{
    if word.len() > 5 {
        return None;
    }
    Register::from_name(padded(word))
}
