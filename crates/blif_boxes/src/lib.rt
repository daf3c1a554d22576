//! Boxes of a BLIF file (Berkeley Logic Interchange Format): the words of a `.subckt`.
#![tactic(auto)]

mod cuts;
mod laws;
mod word;

pub use laws::one_reading;
pub use word::{Actual, PinWord, read_pin_word};
