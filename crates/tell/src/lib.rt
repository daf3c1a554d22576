//! How a refusal is told: a trait through which each reader's error tells itself, and the texts of
//! its fields.
#![tactic(auto)]

mod fields;
mod refusal;

pub use fields::{put_named, put_number, put_pair, put_place, put_placed, put_two};
pub use refusal::Tell;
