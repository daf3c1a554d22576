//! The order of the lines of a BLIF file (Berkeley Logic Interchange Format) in which a netlist's
//! nets are numbered by first mention, and of the pins in the line of a box.
#![tactic(auto)]

mod known;
mod lines;
mod pins;
mod queues;

pub use lines::line_order;
pub use pins::pin_order;
