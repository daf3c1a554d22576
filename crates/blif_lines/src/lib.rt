//! The lines of a BLIF file (Berkeley Logic Interchange Format): comments are cut off, and lines
//! that a backslash joins are put together. What is read lends from the file.
#![tactic(auto)]

mod joined;
mod laws;
mod line;
mod physical;
mod words;

pub use laws::one_reading;
pub use line::{Cursor, Line, LineText, next_line};
