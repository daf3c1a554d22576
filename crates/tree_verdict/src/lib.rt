//! What a tree shows of a task: that nothing realises it, less than that, or that a node is wrong.
#![tactic(auto)]

mod verdict;

pub use verdict::{Verdict, one_verdict};
