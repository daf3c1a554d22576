//! Block types of any size, made in memory. The benchmark of expansion stands on them.
#![tactic(auto)]

mod make;
mod samples;

pub use make::{InterRow, PortRow, block, inters, leaf, mode, one_kid, one_mode, ports};
pub use samples::crossbar;
