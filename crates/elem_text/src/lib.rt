//! Element text, the form of architecture files, routing graphs and packed netlists: a small part
//! of XML with one root element. The reader accepts exactly its grammar, and the writer's text
//! reads back.
#![tactic(auto)]

mod bytes;
mod elem;
mod error;
mod laws;
mod lex;
mod pieces;
mod reader;
mod references;
mod stack;
mod tag_attrs;
mod tags;
mod writer;

pub use bytes::place_after;
pub use elem::{Attr, Elem};
pub use error::ElemError;
pub use laws::{laws_of_the_grammar, read_back};
pub use reader::read_elems;
pub use writer::write_elem;
