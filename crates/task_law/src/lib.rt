//! The law of refuting trees: where a tree refutes a task, nothing realises it. There is no code
//! here.
#![tactic(auto)]

mod nets;
mod refuted;

pub use nets::one_net_law;
pub use refuted::refuting_law;
