//! What a valid task speaks of is there, as whoever checks trees of it asks. There is no code here.
#![tactic(auto)]

mod laws;

pub use laws::there_law;
