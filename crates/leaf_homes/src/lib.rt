//! Which leaves of a block type can hold an atom of a netlist.
#![tactic(auto)]

mod leaves;

pub use leaves::can_hold;
