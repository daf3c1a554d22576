//! The shelves and sinks of the project: in memory, with a plan of calls that fail or with none;
//! over one file of a shelf; and the real ones, over files and standard output.
#![tactic(auto)]

mod calm;
mod file_map;
mod memory;
mod plan;
mod real;
mod through;

pub use calm::{CalmShelf, QuietSink};
pub use file_map::FileMap;
pub use memory::{MemShelf, MemSink};
pub use real::{RealShelf, RealSink};
pub use through::ShelfSink;
