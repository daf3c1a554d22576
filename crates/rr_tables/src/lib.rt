//! The tables of a routing graph file in which its parts find each other: the grid its block types,
//! nodes the pins of blocks, and edges nodes and switches.
#![tactic(auto)]

mod ends;
mod laws;
mod layout;
mod roots;
mod types;

pub use ends::Ends;
pub use laws::{found_kinds, found_pins, types_fit};
pub use layout::Layout;
pub use types::KnownTypes;
