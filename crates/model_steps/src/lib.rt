//! What models of BLIF files (Berkeley Logic Interchange Format) keep, line by line. There is no
//! code here.
#![tactic(auto)]

mod laws;

pub use laws::step_law;
