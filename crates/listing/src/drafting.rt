// How one thing more goes into a draft; none where another was expected.
ghost use Rattle.std.specs.Prelude.{◌≡◌, ◌≤◌, length, IfOk, IfSome};
ghost use Rattle.listing.specs.Counts.{count_of};
ghost use Rattle.listing.specs.Drafts.{negated_of, put_of, dressed_of, wanted_of, fault_of, finish_of};
ghost use Rattle.listing.specs.Requests.{Names};

use super::draft::{Draft, Setting, Stage};
use super::line::Line;
use super::line_fault::{ListingFault, Wanted};
use super::request::{Decorations, Operand, Request};
use super::token::{Decoration, Mark, Token};
use machine::{Code, Mode, Opmask, RoundingControl};

// a number behind a minus, by two's complement
pub(crate) fn negated(number: u64) -> Option<u64>
    ensures { result ≡ negated_of number }
{
    (number <= 0x8000_0000_0000_0000).then(|| number.wrapping_neg())
}

// how many operands there are before the first place that has none
pub(crate) fn count<T>(operands: &[Option<T>]) -> usize
    ensures count { result ≡ count_of operands.now }
    ensures within { result ≤ length operands.now }
{
    operands
        .iter()
        .take_while(|operand| operand.is_some())
        .count()
}

impl Request {
    // with one operand more; the fifth is a number
    fn put(self, operand: Operand, column: usize) -> Option<Request>
        ensures { result ≡ put_of self operand column }
    {
        let place = count(&self.operands);
        if place > 4 || place == 4 && !matches!(operand, Operand::Number(_)) {
            return None;
        }
        let mut operands = self.operands;
        operands[place] = Some(operand);
        Some(Request {
            column,
            operands,
            ..self
        })
    }
}

impl Decorations {
    // with one decoration more; a second mask or rounding is none
    fn with(self, decoration: Decoration) -> Option<Decorations>
        ensures { result ≡ dressed_of self decoration }
    {
        match decoration {
            Decoration::Mask(opmask) if self.opmask == Opmask::Unmasked => Some(Decorations {
                opmask,
                ..self
            }),
            Decoration::Zeroing => Some(Decorations {
                zeroing: true,
                ..self
            }),
            Decoration::Broadcast => Some(Decorations {
                broadcast: true,
                ..self
            }),
            Decoration::Sae => Some(Decorations { sae: true, ..self }),
            Decoration::Rounding(rounding) if self.rounding == RoundingControl::Unstated => Some(
                Decorations { rounding, ..self },
            ),
            _ => None,
        }
    }
}

impl Stage {
    // what is expected there
    fn wanted(self) -> Wanted
        ensures { result ≡ wanted_of self }
    {
        match self {
            Stage::First => Wanted::First,
            Stage::Mode => Wanted::Mode,
            Stage::Address => Wanted::Address,
            Stage::Done(_) => Wanted::End,
            Stage::Operand => Wanted::Operand,
            Stage::Negative => Wanted::Number,
            Stage::Register(_) | Stage::Memory | Stage::After => Wanted::Comma,
            Stage::Open(_) => Wanted::Open,
            Stage::Term(_) => Wanted::Term,
            Stage::Held(_) => Wanted::Target,
            Stage::Factor => Wanted::Factor,
            Stage::Close => Wanted::Close,
            Stage::Size => Wanted::Size,
        }
    }
}

impl Draft {
    // at another stage
    pub(crate) fn at(self, stage: Stage) -> Draft {
        Draft { stage, ..self }
    }

    // what is wrong where the next thing is not the expected one
    pub(crate) fn fault(self) -> ListingFault
        ensures { result ≡ fault_of self }
    {
        ListingFault {
            column: self.column,
            wanted: self.stage.wanted(),
        }
    }

    fn first(self, token: Token) -> Option<Draft> {
        match token {
            Token::Mode => Some(self.at(Stage::Mode)),
            Token::At => Some(self.at(Stage::Address)),
            Token::Number(number) => Some(Draft {
                stage: Stage::Operand,
                request: Request {
                    number: u16::try_from(number).ok()?,
                    ..self.request
                },
                ..self
            }),
            _ => None,
        }
    }

    // the number behind mode or at
    fn setting(self, token: Token) -> Option<Draft> {
        let said = match (self.stage, token) {
            (Stage::Mode, Token::Number(bits)) => Setting::Mode(Mode::from_number(u8::try_from(
                bits,
            ).ok()?)?),
            (Stage::Address, Token::Number(address)) => Setting::At(address),
            _ => return None,
        };
        Some(self.at(Stage::Done(said)))
    }

    // with one operand more
    pub(crate) fn put(self, operand: Operand) -> Option<Draft> {
        Some(Draft {
            request: self.request.put(operand, self.column)?,
            ..self
        })
    }

    // the begin of an operand
    fn operand(self, token: Token) -> Option<Draft> {
        match token {
            Token::Number(number) => Some(self.put(Operand::Number(number))?.at(Stage::After)),
            Token::Register(register) => {
                let draft = self.put(Operand::Register(register))?;
                Some(draft.at(Stage::Register(register)))
            }
            Token::Mark(Mark::Minus) => Some(self.at(Stage::Negative)),
            Token::Mark(Mark::Open) => self.open(None),
            Token::Size => Some(self),
            _ => None,
        }
    }

    fn negative(self, token: Token) -> Option<Draft> {
        match token {
            Token::Number(number) => {
                let draft = self.put(Operand::Number(negated(number)?))?;
                Some(draft.at(Stage::After))
            }
            _ => None,
        }
    }

    // behind an operand
    pub(crate) fn after(self, token: Token) -> Option<Draft> {
        match token {
            Token::Mark(Mark::Comma) if count(&self.request.operands) < 5 => Some(self.at(
                Stage::Operand,
            )),
            Token::Decoration(decoration) => Some(Draft {
                stage: Stage::After,
                request: Request {
                    dress: self.request.dress.with(decoration)?,
                    ..self.request
                },
                ..self
            }),
            _ => None,
        }
    }

    fn taken(self, token: Token) -> Option<Draft> {
        match self.stage {
            Stage::First => self.first(token),
            Stage::Mode | Stage::Address => self.setting(token),
            Stage::Done(_) => None,
            Stage::Operand => self.operand(token),
            Stage::Negative => self.negative(token),
            Stage::After => self.after(token),
            _ => self.memory_step(token),
        }
    }

    // one thing more, at the draft's column
    pub(crate) fn step(self, token: Token) -> Result<Draft, ListingFault> {
        self.taken(token).ok_or(self.fault())
    }

    // what the line says, where it may end; nothing where nothing stands on it
    pub(crate) fn finish(self) -> Result<Option<Line>, ListingFault>
        ensures said { result ≡ finish_of self }
        ensures names { IfOk result (λ l. IfSome l Names) }
    {
        match self.stage {
            Stage::First => Ok(None),
            Stage::Done(said) => Ok(Some(said.line())),
            Stage::Operand if count(&self.request.operands) == 0 => Ok(Some(Line::Asked(
                self.request.asked(),
            ))),
            Stage::Register(_) | Stage::Memory | Stage::After => Ok(Some(Line::Asked(
                self.request.asked(),
            ))),
            _ => Err(self.fault()),
        }
    }
}
