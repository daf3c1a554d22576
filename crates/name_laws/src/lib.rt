//! Laws of the names in a graph: what an instance, a pin or a mode is written as tells it, and is a
//! word.
#![tactic(auto)]

mod laws;

pub use laws::names_are_one;
