//! The text of a list of atoms: one name a line.
#![tactic(auto)]

mod error;
mod laws;
mod read;
mod table;
mod telling;

pub use error::TaskError;
pub use laws::laws_of_lists;
pub use read::read_atoms;
pub use table::atoms_by_name;
