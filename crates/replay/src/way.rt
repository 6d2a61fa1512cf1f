// What is asked of a case. An enum, and no closure, since a word of the input chooses it.
#[derive(Clone, Copy)]
pub enum Way {
    // whether its record is sound
    Sound,
    // what its encoding comes to
    Encode,
}

impl Way {
    // the way of a word
    pub fn named(word: &[u8]) -> Option<Way> {
        match word {
            b"sound" => Some(Way::Sound),
            b"encode" => Some(Way::Encode),
            _ => None,
        }
    }
}
