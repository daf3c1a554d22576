//! Why a BLIF file (Berkeley Logic Interchange Format) gives no netlist, and how it is told.
#![tactic(auto)]

mod error;
mod telling;

pub use error::BlifError;
