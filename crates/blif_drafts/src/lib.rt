//! Drafts of BLIF models (Berkeley Logic Interchange Format): a model as it is put together, line
//! by line.
#![tactic(auto)]

mod add;
mod adding;
mod boxes;
mod changing;
mod counting;
mod draft;
mod elements;
mod making;
mod opening;
mod pads;
mod refusing;

pub use draft::Draft;
pub use refusing::stray;
