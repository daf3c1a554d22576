//! Pin words and the edges of one mode of a pb_type: which pins a text names, and the pairs of pins
//! that the mode's interconnects give, each owned by the first interconnect that gives it.
#![tactic(auto)]

mod edges;
mod faults;
mod found;
mod groups;
mod index;
mod laws;
mod names;
mod pin;
mod pins;
mod split;
mod walk;
mod word;

pub use faults::EdgeError;
pub use laws::{one_list, one_reading};
pub use names::{ModeNames, PortNames};
pub use pin::{ChildAt, EdgeEnd, LocalEdge, LocalPin};
