//! Words of the lines of a BLIF file (Berkeley Logic Interchange Format): what holds of them, and
//! how many there are. There is no code here.
#![tactic(auto)]

mod laws;

pub use laws::word_law;
