//! What a search of a task knows at a node: what closes it, what is still to be decided there, and
//! which realisation its decisions are. Definitions, and laws that tie them together.
#![tactic(auto)]

mod laws;

pub use laws::hope_law;
