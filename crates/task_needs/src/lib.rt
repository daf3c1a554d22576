//! What the nets of some atoms need of a block type.
#![tactic(auto)]

mod asked;
mod leaves;
mod needs;

pub use needs::task_needs;
