//! Classes of numbers that are joined, one to another or along a chain.
#![tactic(auto)]

mod joined;
mod spread;

pub use joined::classes;
