//! Which leaves can hold an atom of a netlist, by their kind and their ports.
#![tactic(auto)]

mod kinds;
mod lut;
mod pins;

pub use kinds::fits;
