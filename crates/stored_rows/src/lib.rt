//! Rows of a program that tries a reader on stored texts: a text, changed or not, and what is to be
//! told of it. docs/CONTRIBUTING.md has the form of rows; here a row has these lines, and an empty
//! line ends it:
//!
//! - `| TEXT`, `, TEXT`, `repeat N TEXT`, `byte N`: the text grows by a line, by this text, by N
//!   such texts, or by one byte that is no text
//! - `count N TEXT`: it grows by N lines of this text, each with its number, from 0, in the place of
//!   the first `#`
//! - `old TEXT`, `new TEXT`: the first place of the one is replaced by the other
//! - `= ANSWER`: this is to be among what is told
//! - `only`: and nothing else is told
//! - `try OLD => NEW => ANSWER ..`: a row of its own, of the text with this change alone, out of
//!   which a mark `@` is taken; a `@` in an answer becomes the place where it stood
//! - `# ..`, `case ..`: nothing
//!
//! Without a line that begins a text anew it is that of the row before. Other lines are the
//! program's own.
#![tactic(auto)]

mod row;
mod script;

pub use row::Row;
pub use script::{Script, Step};
