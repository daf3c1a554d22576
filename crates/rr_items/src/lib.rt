//! The items of a routing graph file, each as one element says it.
#![tactic(auto)]

mod carriers;
mod ends;
mod features;
mod grid;
mod ground;
mod laws;
mod nodes;
mod switches;

pub use carriers::{CarriedNode, Carrier, TilePin};
pub use ends::{EdgeEnds, edge_ends};
pub use features::features_of_edge;
pub use grid::{GridFault, GridPlace, grid_place};
pub use laws::one_item;
pub use nodes::{Node, NodeFault, NodeKind, Span, read_node};
pub use switches::{Switch, read_switch};
