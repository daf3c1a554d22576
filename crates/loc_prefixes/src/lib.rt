//! Prefixes of a device's locations (FPGA assembly metadata of VTR architectures): which layout
//! holds, what the `fasm_prefix` of each of its `single` elements says, and which of them a location
//! has.
#![tactic(auto)]

mod error;
mod holders;
mod layout;
mod singles;
mod table;
mod tile_names;

pub use error::SinglesError;
pub use layout::{layout_of, singles_of};
pub use table::LocPrefixes;
