//! What a task keeps, and what the task of a list of atoms is. There is no code here.
#![tactic(auto)]

mod laws;

pub use laws::valid_law;
