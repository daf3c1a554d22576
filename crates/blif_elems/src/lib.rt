//! What a line of a BLIF file (Berkeley Logic Interchange Format) says, by its words.
#![tactic(auto)]

mod behind;
mod fault;
mod keyword;
mod laws;
mod nets;
mod read;
mod statement;

pub use fault::Fault;
pub use laws::{keyword_lines, one_reading};
pub use nets::is_net;
pub use read::read_statement;
pub use statement::Statement;
