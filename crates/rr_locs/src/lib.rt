//! The locations of a grid: one for each sub block of each block that stands in it.
#![tactic(auto)]

mod error;
mod firsts;
mod laws;
mod listing;
mod locs;
mod roots;

pub use error::LocsError;
pub use laws::{one_list, subs_follow};
pub use locs::Locs;
pub use roots::{LocAt, TileRoot};
