//! The law of a task's room: no tree whose nodes are accepted has more branches. There is no code
//! here.
#![tactic(auto)]

mod bound;

pub use bound::room_law;
