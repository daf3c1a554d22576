//! The text of a programming: its lines, and how instances, pins and modes are written in them.
#![tactic(auto)]

mod block;
mod descend;
mod digits;
mod error;
mod graph;
mod into;
mod laws;
mod line;
mod line_laws;
mod lines;
mod names;
mod read;
mod resolve;
mod steps;
mod table;
mod telling;
mod words;
mod write;

pub use digits::number;
pub use error::ProgError;
pub use graph::GraphNames;
pub use laws::{laws_of_the_text, plain_names, read_back};
pub use line_laws::{laws_of_lines, laws_of_names, one_division};
pub use lines::next_line;
pub use names::{put_instance, put_pin};
pub use read::{read_prog, read_prog_from};
pub use resolve::{leaf_named, setting_of};
pub use words::{first_word, is_one_word, three_words, two_words};
pub use write::write_prog;
