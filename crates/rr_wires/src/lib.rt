//! The wires of a routing graph and the pairs of wires that its edges join, both by number.
#![tactic(auto)]

mod laws;
mod numbers;
mod order;
mod owned;
mod tables;
mod types;
mod wires;

pub use laws::{one_graph, one_wire};
pub use types::{NodeEdge, OwnedEdge, REdge, REdgeIx, WireIx};
pub use wires::Wires;
