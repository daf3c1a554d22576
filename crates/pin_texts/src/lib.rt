//! Pins of boxes as BLIF text says them (Berkeley Logic Interchange Format). There is no code
//! here.
#![tactic(auto)]

mod laws;

pub use laws::text_pins;
