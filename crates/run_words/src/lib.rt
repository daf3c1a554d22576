//! The words of a command line, over any table of commands: which command they are, or the first
//! word that can't stand.
#![tactic(auto)]

mod error;
mod fits;
mod parts;
mod read;
mod shape;

pub use error::WordsError;
pub use read::{Command, read_words};
pub use shape::{Shape, WordKind};
