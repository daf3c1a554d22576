//! The text of a tree that is to refute a task: one node a line, in preorder.
#![tactic(auto)]

mod error;
mod laws;
mod nodes;
mod read;
mod table;
mod telling;

pub use error::TreeError;
pub use laws::laws_of_trees;
pub use read::read_tree;
pub use table::task_atoms;
