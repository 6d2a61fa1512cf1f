// A whole line.
ghost use Rattle.std.specs.Prelude.{◌≡◌, IfOk, IfSome};
ghost use Rattle.listing.specs.Drafts.{empty_draft};
ghost use Rattle.listing.specs.Requests.{Names};

use super::draft::{Draft, Stage};
use super::lexing::{after_blanks, next_token};
use super::line::Line;
use super::line_fault::ListingFault;
use super::request::{Decorations, Request};
use machine::{Opmask, RoundingControl};

impl Draft {
    // nothing said yet
    fn new() -> Draft
        ensures { result ≡ empty_draft }
    {
        Draft {
            stage: Stage::First,
            column: 0,
            request: Request {
                number: 0,
                column: 0,
                operands: [None; 5],
                memory: None,
                dress: Decorations {
                    opmask: Opmask::Unmasked,
                    zeroing: false,
                    broadcast: false,
                    sae: false,
                    rounding: RoundingControl::Unstated,
                },
            },
        }
    }
}

impl Line {
    // what a line says, none where nothing stands on it; the registers, segments, scales, masks and roundings that it asks for
    // are such as there are
    pub fn parse(line: &[u8]) -> Result<Option<Line>, ListingFault>
        ensures { IfOk result (λ l. IfSome l Names) }
    {
        let mut draft = Draft::new();
        let mut rest = line;
        // what a thing takes decides where the next begins
        loop {
            rest = after_blanks(rest);
            draft.column = line.len() - rest.len() + 1;
            if matches!(rest, [] | [b'#', ..]) {
                return draft.finish();
            }
            let (token, after) = next_token(rest).ok_or(draft.fault())?;
            draft = draft.step(token)?;
            rest = after;
        }
    }
}
