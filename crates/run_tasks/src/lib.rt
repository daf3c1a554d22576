//! The task of a list of atoms on a block type as an input of commands: what a run reads of its
//! four words, and why it stops at one.
#![tactic(auto)]

mod input;
mod list;
mod words;

pub use input::{TaskInput, read_task};
pub use words::TaskWords;
