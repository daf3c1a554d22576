//! Netlists from BLIF files (Berkeley Logic Interchange Format), for an architecture.
#![tactic(auto)]

mod laws;
mod read;

pub use laws::one_netlist;
pub use read::read_blif;
