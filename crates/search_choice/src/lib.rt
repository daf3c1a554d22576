//! What a search of a task decides next: modes come first, then what leaves are used for, and then
//! what lies on a way of a need that isn't settled.
#![tactic(auto)]

mod edges;
mod next;
mod vars;
mod ways;

pub use next::next_var;
