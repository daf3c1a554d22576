//! Sets of numbers below a limit, whose elements stand in the order in which they came.
#![tactic(auto)]

mod set;

pub use set::SparseSet;
