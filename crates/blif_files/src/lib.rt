//! The model of a BLIF file (Berkeley Logic Interchange Format) for an architecture, with what
//! every such model keeps, and the law that a file says one.
#![tactic(auto)]

mod file;
mod laws;

pub use file::read_parts;
pub use laws::one_file;
