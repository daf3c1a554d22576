//! The lines of a realisation's text: what each of them spells, or what it lacks.
#![tactic(auto)]

mod enter;
mod home;
mod laws;
mod line;
mod read;
mod words;

pub use laws::laws_of_lines;
pub use line::RealLine;
pub use read::read_line;
