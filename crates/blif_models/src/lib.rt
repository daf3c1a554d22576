//! The model of a BLIF file (Berkeley Logic Interchange Format), from all its lines.
#![tactic(auto)]

mod line;
mod model;
mod reading;

pub use model::read_model;
