//! The switches and the block types of a routing graph file.
#![tactic(auto)]

mod error;
mod keyed;
mod laws;
mod pin_elems;
mod pin_text;
mod pins;
mod switches;
mod tile_names;
mod types;

pub use error::PlaceError;
pub use laws::{one_list, one_refusal};
pub use pin_text::{NamedPin, SubPin};
pub use pins::ClassedPin;
pub use switches::{Switches, read_switches};
pub use types::{BlockType, BlockTypes, read_types};
