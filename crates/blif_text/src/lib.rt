//! Netlists as BLIF text (Berkeley Logic Interchange Format).
#![tactic(auto)]

mod atoms;
mod boxes;
mod rows;
mod words;
mod writer;

pub use writer::write_blif;
