//! First places: a site of its own for each block, of a kind that goes with the block's, or blocks
//! that outnumber all the sites that fit any of them. By Hall's theorem there are such blocks
//! exactly where there is no placing of all.
#![tactic(auto)]

mod chains;
mod error;
mod flow;
mod links;
mod numbered;
mod places;
mod seats;
mod ways;

pub use error::PlaceError;
pub use places::first_places;
