//! The nodes of a routing graph file, each with what carries its signal.
#![tactic(auto)]

mod carried;
mod error;
mod gathered;
mod laws;
mod nodes;
mod one;
mod pins;
mod placed;
mod reading;

pub use error::NodeError;
pub use laws::one_reading;
pub use nodes::Nodes;
pub use pins::{FoundPin, PinTable};
pub use placed::{NodeAt, PlacedNode};
pub use reading::read_nodes;
