//! The laws of a search that found a way: where nothing is left to decide, each atom has its home
//! and each need its way, and decisions of that kind are a realisation. There is no code here.
#![tactic(auto)]

mod homes;
mod legal;

pub use homes::home_law;
pub use legal::{legal_law, ready_law};
