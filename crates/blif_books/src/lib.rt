//! What lines of a BLIF model (Berkeley Logic Interchange Format) have in common: nets that they
//! mention and drive, and names that they give to atoms.
#![tactic(auto)]

mod book;
mod laws;

pub use book::Book;
pub use laws::one_book;
