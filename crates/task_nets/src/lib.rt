//! The nets of the connections of some atoms.
#![tactic(auto)]

mod joined;
mod nets;

pub use joined::joined_nets;
pub use nets::task_nets;
