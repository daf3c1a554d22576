//! The inputs of commands, each with what it reads and why a run stops at it: an architecture with
//! the graphs of its block types, and a block type by its name.
#![tactic(auto)]

mod architecture;
mod blocks;
mod valid;

pub use architecture::{Expanded, read_expanded};
pub use blocks::block_named;
pub use valid::valid_is_read;
