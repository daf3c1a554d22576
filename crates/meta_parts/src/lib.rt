//! Parts of metadata texts: lines, words, the two sides of a line, and the forms of features, fields
//! and children. What is read lends from the text.
#![tactic(auto)]

mod by_line;
mod by_word;
mod divide;
mod forms;
mod index;
mod laws;
mod texts;

pub use by_line::{Line, said_lines};
pub use by_word::{comma_parts, listed_words, only_word, words};
pub use divide::sides;
pub use forms::{BitForm, ChildForm, RangeForm, bit_form, child_form, range_form};
pub use laws::{names_are_texts, one_form};
pub use texts::text_of;
