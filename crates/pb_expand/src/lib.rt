//! A block type as a flat graph: its instances, pins and edges by number, tied to their addresses
//! in the tree of pb_types.
#![tactic(auto)]

mod all;
mod copy;
mod edges;
mod ends;
mod error;
mod faults;
mod graph;
mod laws;
mod number;
mod places;
mod rows;
mod shape;
mod telling;

pub use all::{BlockError, expand_all};
pub use error::ExpandError;
pub use graph::{PbGraph, expand, graph_of};
pub use laws::one_graph;
pub use number::{Edge, EdgeIx, PbIx, PbKind, PinAt, PinIx, Step};
