//! Statements as BLIF text says them (Berkeley Logic Interchange Format): what the lines of a text
//! that a netlist is written as say. There is no code here.
#![tactic(auto)]

mod laws;

pub use laws::said_texts;
