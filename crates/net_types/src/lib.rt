//! The netlist that a BLIF file says (Berkeley Logic Interchange Format): atoms, and the nets that
//! join them.
#![tactic(auto)]

mod atom;
mod copies;
mod ends;
mod netlist;
mod parts;

pub use arch_types::AtomKind;
pub use atom::{Atom, Conn};
pub use netlist::Netlist;
pub use parts::NetlistParts;
