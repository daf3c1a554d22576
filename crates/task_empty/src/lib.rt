//! The tasks that a block type fulfils as it is, with nothing programmed: those of no atoms. There
//! is no code here.
#![tactic(auto)]

mod laws;

pub use laws::empty_law;
