//! What a trail of decisions leaves open: leaves to atoms, pins to nets and edges, and LUTs to
//! passing an input on.
#![tactic(auto)]

mod entries;
mod leaves;
mod steps;

pub use entries::{may_enter, surely_enters};
pub use leaves::is_open_to;
pub use steps::{may_pass, may_take};
