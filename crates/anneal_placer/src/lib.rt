//! Places of least cost: from places of all blocks, moves and exchanges of blocks at random at a
//! falling temperature, and then a descent until no exchange and no move to a free site makes the
//! cost less. The cost is the half perimeter of each net's rectangle.
#![tactic(auto)]

mod annealing;
mod board;
mod cost;
mod curve;
mod descent;
mod draw;
mod grid;
mod indexed;
mod pairing;
mod pull;
mod rect;
mod shake;
mod task;
mod trial;
mod wake;

pub use annealing::anneal;
pub use cost::cost_of;
pub use task::{AnnealTask, SiteAt};
