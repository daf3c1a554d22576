//! The law that each instance of a graph that isn't a leaf has a mode. There is no code here.
#![tactic(auto)]

mod laws;

pub use laws::some_modes;
