// What a line asks for in the machine's words, and the same in numbers.
ghost use Rattle.std.specs.Prelude.{◌≡◌, ◌<◌};
ghost use Rattle.listing.specs.Requests.{register_number, given_of, given_at, givens_of, numbers_of_memory, numbers_of_dress, asked_of};

use super::drafting::count;
use super::line::{Asked, Dress, Given, Memory};
use machine::{Code, Opmask, Register, RoundingControl, Scale, Segment};
use std::array;

// One operand. Its memory stands once for the whole line.
#[derive(Clone, Copy)]
pub(crate) enum Operand {
    Register(Register),
    Number(u64),
    Memory,
}

// The memory operand. Its size in bytes stands where it is asked for.
#[derive(Clone, Copy)]
pub(crate) struct Address {
    pub(crate) segment: Option<Segment>,
    pub(crate) base: Option<Register>,
    pub(crate) index: Option<Register>,
    pub(crate) scale: Scale,
    pub(crate) displ: Option<u64>,
    pub(crate) size: Option<u8>,
}

// What stands in braces. Not `EvexFields` of an instruction, though alike, since a line adds to it one by one by a method.
#[derive(Clone, Copy)]
pub(crate) struct Decorations {
    pub(crate) opmask: Opmask,
    pub(crate) zeroing: bool,
    pub(crate) broadcast: bool,
    pub(crate) sae: bool,
    pub(crate) rounding: RoundingControl,
}

// An instruction that is asked for, its operands by place. The column is the last operand's, counted from 1.
#[derive(Clone, Copy)]
pub(crate) struct Request {
    pub(crate) number: u16,
    pub(crate) column: usize,
    pub(crate) operands: [Option<Operand>; 5],
    pub(crate) memory: Option<Address>,
    pub(crate) dress: Decorations,
}

// the number of a register, 0 where there is none
fn number(register: Option<Register>) -> u8
    ensures { result ≡ register_number register }
{
    register.map_or(0, |register| register.number)
}

impl Operand {
    fn given(self) -> Given
        ensures { result ≡ given_of self }
    {
        match self {
            Operand::Register(register) => Given::Register(register.number),
            Operand::Number(number) => Given::Number(number),
            Operand::Memory => Given::Memory,
        }
    }
}

impl Address {
    fn numbers(self) -> Memory
        ensures { result ≡ numbers_of_memory self }
    {
        Memory {
            segment: self.segment.map_or(0, |segment| segment.number()),
            base: number(self.base),
            index: number(self.index),
            scale: self.scale.number(),
            displ: self.displ,
            size: self.size,
        }
    }
}

impl Decorations {
    fn numbers(self) -> Dress
        ensures { result ≡ numbers_of_dress self }
    {
        Dress {
            opmask: self.opmask.number(),
            zeroing: self.zeroing,
            broadcast: self.broadcast,
            sae: self.sae,
            rounding: self.rounding.number(),
        }
    }
}

impl Request {
    fn given(&self, at: usize) -> Option<Given>
        requires { at < 5 }
        ensures { result ≡ given_at self.now at }
    {
        self.operands[at].map(Operand::given)
    }

    fn givens(&self) -> [Option<Given>; 5]
        ensures { result ≡ givens_of self.now }
    {
        array::from_fn(|at| self.given(at))
    }

    // the same in numbers
    pub(crate) fn asked(&self) -> Asked
        ensures { result ≡ asked_of self.now }
    {
        Asked {
            number: self.number,
            count: count(&self.operands) as u8,
            column: self.column,
            operands: self.givens(),
            memory: self.memory.map(Address::numbers),
            dress: self.dress.numbers(),
        }
    }
}
