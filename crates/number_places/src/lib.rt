//! Different numbers by their places.
#![tactic(auto)]

mod ascending;
mod numbers;

pub use numbers::Numbers;
