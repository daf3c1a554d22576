//! What packing asks of one block type: the task of a cluster, what realises it, and the trees that
//! show that nothing does.
#![tactic(auto)]

mod cluster;
mod decision;
mod real;
mod task;
mod tree;
mod wires;

pub use cluster::Cluster;
pub use decision::{Decision, Occupant};
pub use real::Real;
pub use task::{Entries, Entry, Need, Task, TaskNet};
pub use tree::{Tree, TreeNode, Var};
pub use wires::wires_at;
