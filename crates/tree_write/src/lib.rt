//! Writing a tree as text: one node a line, in preorder.
#![tactic(auto)]

mod node;
mod variable;
mod words;
mod write;

pub use write::write_tree;
