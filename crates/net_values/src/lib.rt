//! The values of a netlist: one truth value for each net, where inputs, latches and boxes give
//! theirs. There is no code here, only what the definitions say and a law about them.
#![tactic(auto)]

mod laws;

pub use laws::one_valuation;
