// Catalogues: which records there are, by number.
#![tactic(auto)]

mod allow_list;
mod allowing;
mod built_in;
mod catalogue;
mod rows;
mod table;

pub use allow_list::AllowList;
pub use built_in::BuiltIn;
pub use catalogue::Catalogue;
pub use rows::Rows;
