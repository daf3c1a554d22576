//! Routing graph files (VPR's file formats, "Routing resource graph"): the whole way from the bytes
//! of a file to its graph of wires, or to the first rule that it breaks.
#![tactic(auto)]

mod error;
mod laws;
mod leaner;
mod read;
mod rr;
mod telling;

pub use error::{RrError, RrLimit};
pub use laws::{fit_tiles, one_reading};
pub use read::read_rr;
pub use rr::{LocIx, Rr};
