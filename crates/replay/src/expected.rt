use super::reply::Reply;
use std::fmt;
use std::fmt::Write;

// What is still to come of an expected answer while an answer is written; none once something else was written.
#[derive(Clone, Copy)]
pub struct Expected<'a> {
    rest: Option<&'a [u8]>,
}

impl<'a> Expected<'a> {
    pub fn new(answer: &'a [u8]) -> Expected<'a> {
        Expected { rest: Some(answer) }
    }

    // whether the answer is what is printed for a reply; it is compared as it is written, so no text of it is kept
    pub fn is(mut self, reply: &Reply) -> bool {
        write!(self, "{reply}").is_ok() && self.rest.is_some_and(|rest| rest.is_empty())
    }
}

impl<'a> fmt::Write for Expected<'a> {
    fn write_str(&mut self, text: &str) -> fmt::Result {
        self.rest = self
            .rest
            .and_then(|rest| rest.strip_prefix(text.as_bytes()));
        Ok(())
    }
}
