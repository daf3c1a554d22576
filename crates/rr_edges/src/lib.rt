//! The edges of a routing graph file: which of them it keeps, and which edge it is refused for.
#![tactic(auto)]

mod error;
mod joints;
mod kept;
mod laws;
mod named;
mod read;
mod table;

pub use error::EdgeError;
pub use joints::Joint;
pub use kept::{Edges, FileEdge};
pub use laws::one_reading_of_edges;
pub use read::read_edges;
pub use table::{Direction, EndTable};
