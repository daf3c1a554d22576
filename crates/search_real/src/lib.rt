//! Decisions that give each atom its home and settle each need, read as a realisation.
#![tactic(auto)]

mod entries;
mod homes;
mod picks;
mod prog;
mod real;
mod uses;

pub use real::real_of;
