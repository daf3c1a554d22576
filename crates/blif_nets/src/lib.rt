//! Nets of a BLIF file (Berkeley Logic Interchange Format) by number, in the order in which they are
//! first mentioned; which of them are driven; and the names of atoms, each of one atom.
#![tactic(auto)]

mod driven;
mod laws;
mod mentions;

pub use driven::{Driven, drive_all};
pub use laws::one_numbering;
pub use mentions::{number_all, number_one, take_name, take_texts, take_words};
