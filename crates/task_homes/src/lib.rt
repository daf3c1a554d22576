//! The leaves of a block type that can hold the atoms of a list.
#![tactic(auto)]

mod homes;

pub use homes::homes_of;
