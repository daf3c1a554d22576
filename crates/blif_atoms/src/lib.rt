//! The atoms of a BLIF model (Berkeley Logic Interchange Format): inputs, outputs, and what its
//! elements say, in the order in which a netlist has them.
#![tactic(auto)]

mod boxes;
mod conns;
mod elems;
mod order;
mod pads;
mod whole;

pub use whole::into_atoms;
