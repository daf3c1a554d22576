//! The checker of refuting trees: whether each node of a tree is accepted, and so whether the tree
//! shows that nothing realises a task.
#![tactic(auto)]

mod accepts;
mod marks;
mod scratch;
mod tally;
mod walk;

pub use scratch::Scratch;
pub use tree_verdict::Verdict;
pub use walk::check_tree;
