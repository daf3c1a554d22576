//! Whether needs of different nets can't but pass pins that are fewer than they.
#![tactic(auto)]

mod blocked;
mod crowd;

pub use crowd::is_crowd;
