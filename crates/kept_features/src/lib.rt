//! The features that a choice sets, each bit once (FPGA assembly metadata of VTR architectures).
#![tactic(auto)]

mod firsts;
mod places;

pub use firsts::kept_features;
pub use places::kept_places;
