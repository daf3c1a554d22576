//! The lines of a tree's text: which node each of them spells.
#![tactic(auto)]

mod branch;
mod laws;
mod lists;
mod modes;
mod node;
mod numbers;
mod variable;
mod words;

pub use laws::one_node;
pub use node::read_node;
