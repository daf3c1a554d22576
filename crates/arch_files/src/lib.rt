//! Architecture files (VTR architecture reference): the whole way from the bytes of a file to what
//! it says, or to the first rule that it breaks.
#![tactic(auto)]

mod error;
mod laws;
mod read;
mod telling;

pub use error::ArchError;
pub use laws::laws_of_files;
pub use read::read_arch;
