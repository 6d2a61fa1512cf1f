// An instruction cut into its fields, as the manual lays them out, under the record that it is read with.
#![tactic(auto)]

mod code;
mod cut;
mod lead;
mod mod_rm;
mod prefixes;

pub use code::Code;
pub use cut::Cut;
pub use lead::Lead;
pub use machine::Sib;
pub use mod_rm::ModRm;
pub use prefixes::Prefixes;
