use machine::Segment;

// What stands first: where it ends, the last segment prefix, whether 67 is there, and the last prefix as a byte, 0 for none,
// the number that a record has for it.
#[derive(Clone, Copy)]
pub struct Prefixes {
    pub end: usize,
    pub segment: Option<Segment>,
    pub p67: bool,
    pub last: u8,
}
