//! Covers of LUTs: the rows of a `.names` of a BLIF file (Berkeley Logic Interchange Format), and
//! the table that they say.
#![tactic(auto)]

mod cover;
mod laws;
mod mark;
mod row;

pub use cover::{Cover, MOST_INPUTS};
pub use laws::one_table;
pub use row::{Row, read_row};
