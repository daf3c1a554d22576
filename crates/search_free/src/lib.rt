//! What is known of the decisions on a path: what they speak of is there and live, and each option
//! of a variable that is live and undecided there can be decided. There is no code here.
#![tactic(auto)]

mod laws;

pub use laws::{enters_law, free_law, held_law, path_law};
