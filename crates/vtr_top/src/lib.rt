//! The commands of the program: which one the words are, what it does, and what is printed of it.
#![tactic(auto)]

mod command;
mod table;

pub use command::run;
pub use run_base::{Status, memory_line};
