// Where the words of a row stand, and what they are made of.
ghost use Rattle.std.specs.Prelude.{◌≡◌, ◌<◌, ◌≤◌, length};
ghost use Rattle.std.specs.List.{prefix_len};
ghost use Rattle.text.specs.Words.{is_blank, in_word, in_key, word_begin, word_end, key_of, mark_of, arg_of};

// A word that is taken apart at its first mark.
#[derive(Clone, Copy)]
pub(crate) struct Word<'a> {
    pub(crate) key: &'a [u8],
    pub(crate) mark: Option<u8>,
    // what follows the mark
    pub(crate) arg: &'a [u8],
}

impl<'a> Word<'a> {
    pub(crate) fn new(text: &'a [u8]) -> Word<'a>
        ensures key { result.key.now ≡ key_of text.now }
        ensures mark { result.mark ≡ mark_of text.now }
        ensures arg { result.arg.now ≡ arg_of text.now }
    {
        let (key, rest) = text.split_at(key_len(text));
        match rest {
            [mark, arg @ ..] => Word {
                key,
                mark: Some(*mark),
                arg,
            },
            [] => Word {
                key,
                mark: None,
                arg: rest,
            },
        }
    }
}

// Each count stands on its own, since inside the functions that use it the chain's goals stayed open.

// how many bytes come before the first mark
fn key_len(word: &[u8]) -> usize
    ensures count { result ≡ prefix_len in_key word.now }
    ensures within { result ≤ length word.now }
{
    word.iter()
        .take_while(|byte| !matches!(**byte, b'=' | b':' | b'/'))
        .count()
}

// how many blanks come first
fn blanks(text: &[u8]) -> usize
    ensures count { result ≡ prefix_len is_blank text.now }
    ensures within { result ≤ length text.now }
{
    text.iter()
        .take_while(|byte| matches!(**byte, b' ' | b'\t'))
        .count()
}

// how many bytes come before the first blank or bar
fn word_len(text: &[u8]) -> usize
    ensures count { result ≡ prefix_len in_word text.now }
    ensures within { result ≤ length text.now }
{
    text.iter()
        .take_while(|byte| !matches!(**byte, b' ' | b'\t' | b'|'))
        .count()
}

// the place from a place on where a word begins, or the line's end
pub(crate) fn word_begin(line: &[u8], from: usize) -> usize
    requires { from ≤ length line.now }
    ensures place { result ≡ word_begin line.now from }
    ensures forward { from ≤ result }
    ensures within { result ≤ length line.now }
{
    from + blanks(&line[from..])
}

// the place after the word that begins at a place; a bar is a word of its own
pub(crate) fn word_end(line: &[u8], at: usize) -> usize
    requires { at < length line.now }
    ensures place { result ≡ word_end line.now at }
    ensures forward { at < result }
    ensures within { result ≤ length line.now }
{
    if line[at] == b'|' {
        at + 1
    } else {
        at + 1 + word_len(&line[at + 1..])
    }
}
