//! What every crate of the project stands on: texts and places of files, lists of truth values,
//! whole numbers as decimal text, and the two traits through which the program meets the outside.
#![tactic(auto)]

mod bits;
mod decimal;
mod outside;
mod parts;
mod place;
mod text;

pub use bits::Bits;
pub use decimal::{put_number, read_number};
pub use outside::{Shelf, ShelfError, Sink, SinkFailed};
pub use parts::cut;
pub use place::Place;
pub use text::Text;
