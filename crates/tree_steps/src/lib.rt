//! The way of a trail of decisions through the nodes of a tree in preorder. There is no stack beside
//! the trail: the decisions on it say what is still to be tried.
#![tactic(auto)]

mod steps;

pub use steps::{go_on, rewind};
