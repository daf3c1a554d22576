//! How many branches a search of a task could need: the number of its variables times the product
//! of the numbers of their options.
#![tactic(auto)]

mod room;
mod tally;

pub use room::{one_room, tree_room};
