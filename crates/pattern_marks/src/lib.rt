//! Which edges of a mode a pack pattern marks.
#![tactic(auto)]

mod pins;

pub use pins::{PatternPins, pattern_pins};
