//! The task of a list of atoms on one block type.
#![tactic(auto)]

mod list;
mod task;

pub use task::task_of;
