// The parts of a memory operand.
ghost use Rattle.std.specs.Prelude.{◌≡◌};
ghost use Rattle.listing.specs.Drafts.{factor_of, vector, memory_at, held_of, indexed_of, moved_of};

use super::draft::{Draft, Stage};
use super::drafting::negated;
use super::request::{Address, Operand, Request};
use super::token::{Mark, Token};
use machine::{Bank, Code, Register, Scale, Segment};

fn scale(factor: u64) -> Option<Scale>
    ensures { result ≡ factor_of factor }
{
    match factor {
        1 => Some(Scale::By1),
        2 => Some(Scale::By2),
        4 => Some(Scale::By4),
        8 => Some(Scale::By8),
        _ => None,
    }
}

fn is_vector(register: Register) -> bool
    ensures { result ≡ vector register }
{
    matches!(register.bank(), Some(Bank::Xmm | Bank::Ymm | Bank::Zmm))
}

impl Address {
    // in a segment, with nothing else said yet
    pub(crate) fn new(segment: Option<Segment>) -> Address
        ensures { result ≡ memory_at segment }
    {
        Address {
            segment,
            base: None,
            index: None,
            scale: Scale::By1,
            displ: None,
            size: None,
        }
    }

    // with an index
    fn indexed(self, register: Register) -> Option<Address>
        ensures { result ≡ indexed_of self register }
    {
        if self.index.is_some() {
            return None;
        }
        Some(Address {
            index: Some(register),
            ..self
        })
    }

    // with a register that has no factor: a vector is the index, else the first is the base
    fn holding(self, register: Register) -> Option<Address>
        ensures { result ≡ held_of self register }
    {
        if is_vector(register) || self.base.is_some() {
            return self.indexed(register);
        }
        Some(Address {
            base: Some(register),
            ..self
        })
    }

    // with a displacement
    fn moved(self, displ: u64) -> Option<Address>
        ensures { result ≡ moved_of self displ }
    {
        if self.displ.is_some() {
            return None;
        }
        Some(Address {
            displ: Some(displ),
            ..self
        })
    }
}

impl Request {
    // without its last operand
    fn without_last(self) -> Request {
        let mut operands = self.operands;
        if let Some(last) = operands.iter_mut().rev().find(|operand| operand.is_some()) {
            *last = None;
        }
        Request { operands, ..self }
    }
}

impl Draft {
    fn with_memory(self, memory: Address) -> Draft {
        Draft {
            request: Request {
                memory: Some(memory),
                ..self.request
            },
            ..self
        }
    }

    // the bracket that opens an address
    pub(crate) fn open(self, segment: Option<Segment>) -> Option<Draft> {
        if self.request.memory.is_some() {
            return None;
        }
        let draft = self.with_memory(Address::new(segment));
        Some(draft.put(Operand::Memory)?.at(Stage::Term(false)))
    }

    // behind a register that is an operand, or the segment of one
    fn register(self, register: Register, token: Token) -> Option<Draft> {
        match (Segment::from_number(register.number), token) {
            (Some(segment), Token::Mark(Mark::Colon)) => Some(Draft {
                stage: Stage::Open(segment),
                request: self.request.without_last(),
                ..self
            }),
            _ => self.after(token),
        }
    }

    fn term(self, minus: bool, token: Token) -> Option<Draft> {
        let memory = self.request.memory?;
        match token {
            Token::Number(number) => {
                let displ = if minus { negated(number)? } else { number };
                Some(self.with_memory(memory.moved(displ)?).at(Stage::Close))
            }
            Token::Register(register) if !minus && memory.holding(register).is_some() => Some(
                self.at(Stage::Held(register)),
            ),
            _ => None,
        }
    }

    // behind a register of an address
    fn held(self, register: Register, token: Token) -> Option<Draft> {
        let memory = self.request.memory?;
        match (register.bank(), token) {
            (_, Token::Mark(Mark::Times)) => {
                let draft = self.with_memory(memory.indexed(register)?);
                Some(draft.at(Stage::Factor))
            }
            (Some(Bank::Ip), Token::Number(target)) => {
                let memory = memory.holding(register)?;
                Some(self.with_memory(memory.moved(target)?).at(Stage::Close))
            }
            _ => self.with_memory(memory.holding(register)?).close(token),
        }
    }

    fn factor(self, token: Token) -> Option<Draft> {
        match token {
            Token::Number(factor) => {
                let memory = Address {
                    scale: scale(factor)?,
                    ..self.request.memory?
                };
                Some(self.with_memory(memory).at(Stage::Close))
            }
            _ => None,
        }
    }

    // behind a part of an address
    fn close(self, token: Token) -> Option<Draft> {
        match token {
            Token::Mark(Mark::Plus) => Some(self.at(Stage::Term(false))),
            Token::Mark(Mark::Minus) => Some(self.at(Stage::Term(true))),
            Token::Mark(Mark::Close) => Some(self.at(Stage::Memory)),
            _ => None,
        }
    }

    fn size(self, token: Token) -> Option<Draft> {
        match token {
            Token::Number(size) if matches!(size, 0 | 1 | 2 | 4 | 8) => {
                let memory = Address {
                    size: u8::try_from(size).ok(),
                    ..self.request.memory?
                };
                Some(self.with_memory(memory).at(Stage::After))
            }
            _ => None,
        }
    }

    // one thing more of a memory operand, or behind a register
    pub(crate) fn memory_step(self, token: Token) -> Option<Draft> {
        match (self.stage, token) {
            (Stage::Register(register), _) => self.register(register, token),
            (Stage::Open(segment), Token::Mark(Mark::Open)) => self.open(Some(segment)),
            (Stage::Term(minus), _) => self.term(minus, token),
            (Stage::Held(register), _) => self.held(register, token),
            (Stage::Factor, _) => self.factor(token),
            (Stage::Close, _) => self.close(token),
            (Stage::Memory, Token::Mark(Mark::Slash)) => Some(self.at(Stage::Size)),
            (Stage::Memory, _) => self.after(token),
            (Stage::Size, _) => self.size(token),
            _ => None,
        }
    }
}
