//! The text of a realisation: homes, entries and the programming, one of them a line.
#![tactic(auto)]

mod laws;
mod lines;
mod order;
mod read;
mod reading;
mod table;

pub use laws::laws_of_reals;
pub use read::read_real;
pub use table::nets_by_name;
