//! The lines of a BLIF file (Berkeley Logic Interchange Format) say one model, or are refused in
//! one way. There is no code here.
#![tactic(auto)]

mod laws;

pub use laws::one_model;
