//! Laws of orders of lines: what holds of the atoms of a netlist holds of its lines, in whichever
//! order they number the nets. There is no code here.
#![tactic(auto)]

mod laws;

pub use laws::{line_law, pin_law};
