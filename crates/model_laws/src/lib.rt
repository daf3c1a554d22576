//! What every model that the lines of a BLIF file say keeps (Berkeley Logic Interchange Format).
//! There is no code here.
#![tactic(auto)]

mod laws;

pub use laws::model_law;
