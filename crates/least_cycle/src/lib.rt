//! The least cycle of a directed graph, or ranks along which each of its edges rises.
#![tactic(auto)]

mod answer;
mod components;
mod distances;
mod laws;
mod lower;
mod ranks;
mod steps;

pub use answer::{Cycles, least_cycle};
pub use laws::{never_both, one_least_cycle};
