//! The grid of a routing graph file: its places, each with the root of the block that stands there.
#![tactic(auto)]

mod error;
mod firsts;
mod grid;
mod laws;
mod reading;
mod right;
mod size;
mod types;

pub use error::GridError;
pub use grid::{Grid, GridRoot};
pub use laws::one_reading;
pub use reading::read_grid;
pub use types::BlockTypeIds;
