//! The round trip of trees: what is written of a tree spells it.
#![tactic(auto)]

mod laws;

pub use laws::written_spells;
