//! Whether the nets of a task can reach their needs by ways that share no pin, or else needs and
//! pins, fewer than they, that each way from one of them has to pass.
#![tactic(auto)]

mod crowds;
mod edges;
mod firsts;
mod flows;
mod ports;

pub use crowds::find_crowd;
