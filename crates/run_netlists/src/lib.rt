//! A netlist as an input of commands: what a run reads of its file over an architecture, and why it
//! stops there.
#![tactic(auto)]

mod mapped;
mod netlist;

pub use mapped::{Mapped, read_mapped};
pub use netlist::netlist_of;
