//! Matching left numbers with right ones: from any partial placing, one more left number is
//! placed, or left numbers are told that outnumber all right ones that go with any of them.
#![tactic(auto)]

mod moves;
mod rows;
mod search;
mod state;

pub use search::Violator;
pub use state::Matching;
