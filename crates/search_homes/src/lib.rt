//! Whether each atom of a task can have a leaf of its own that is open to it, or else atoms that
//! outnumber the leaves that are open to any of them.
#![tactic(auto)]

mod homes;
mod pairs;

pub use homes::find_homeless;
