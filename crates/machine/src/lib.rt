// The machine's words: registers and their banks, operand kinds, code sizes, modes, rounding, segments.
#![tactic(auto)]

mod bank;
mod byte_code;
mod code;
mod code_size;
mod mode;
mod names;
mod op_kind;
mod opmask;
mod place;
mod register;
mod registers;
mod rounding;
mod scale;
mod segment;
mod sib;

pub use bank::Bank;
pub use byte_code::ByteCode;
pub use code::Code;
pub use code_size::CodeSize;
pub use mode::Mode;
pub use op_kind::OpKind;
pub use opmask::Opmask;
pub use place::Place;
pub use register::Register;
pub use rounding::RoundingControl;
pub use scale::Scale;
pub use segment::Segment;
pub use sib::Sib;
