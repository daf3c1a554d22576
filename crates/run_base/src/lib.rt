//! What every command of the program stands on: the statuses, why a run stops, fetching an input
//! and writing an output, and what is printed.
#![tactic(auto)]

mod answer;
mod inputs;
mod outputs;
mod pieces;
mod printing;
mod status;
mod stop;

pub use answer::Answer;
pub use inputs::fetch;
pub use outputs::write_output;
pub use pieces::{OutputText, PutError, Whole, fronts_of_pieces};
pub use printing::{memory_line, print, said, words_line};
pub use status::Status;
pub use stop::{Stop, refused, refused_by};
