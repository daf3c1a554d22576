//! Paths of a directed graph that share no node, or a small set of nodes that every path meets.
#![tactic(auto)]

mod cut;
mod flow;
mod graph;
mod placing;
mod trails;

pub use flow::disjoint_paths;
pub use graph::{Flow, Plain};
