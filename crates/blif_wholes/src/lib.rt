//! The netlist of a model that a BLIF file says (Berkeley Logic Interchange Format), and what is
//! asked of the whole: few atoms, a driver of each net, and no cycle through LUTs.
#![tactic(auto)]

mod laws;
mod whole;

pub use laws::one_whole;
pub use whole::into_netlist;
