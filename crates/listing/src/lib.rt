// Instructions as people write them: a line is a record's number and its operands, as `0 EAX, [RBP+8]`.
//
//     line     = nothing | `mode` 16, 32 or 64 | `at` number | number [operand {`,` operand}]
//     operand  = register | [`-`] number | memory, each with decorations behind it
//     memory   = [segment `:`] `[` term {`+` or `-` term} `]` [`/` size]
//     term     = register | register `*` 1, 2, 4 or 8 | number | RIP number
//     size     = 0, 1, 2, 4 or 8: the bytes of displacement that are asked for
//     decoration = `{K1}` to `{K7}` `{z}` `{bcst}` `{sae}` `{rn}` `{rd}` `{ru}` `{rz}`
//
// A number is decimal or 0x and hexadecimal, below 2^64. `#` begins a comment. Register names are in either case. The
// words byte, word, dword, qword, xmmword, ymmword, zmmword and ptr before an operand say nothing. In `[RIP 0x2000]` and
// `[RIP+0x2000]` the number is the target. Without `/` the size is 0 where there is no displacement or the base is RIP
// or EIP, the mode's size (2, 4 or 8) where there is no register, else 1. Of a number that is too large for its
// operand the low bits count. A vector register, or one with a factor, is the index; else the first register is the base.
#![tactic(auto)]

mod digits;
mod draft;
mod drafting;
mod lexing;
mod line;
mod line_fault;
mod making;
mod memory_steps;
mod names;
mod parsing;
mod request;
mod token;

pub use line::{Asked, Dress, Given, Line, Memory};
pub use line_fault::{ListingFault, Wanted};
