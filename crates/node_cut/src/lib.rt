//! Whether pins hold all ends of a need and no way out to a source of its net.
#![tactic(auto)]

mod cut;

pub use cut::is_cut;
