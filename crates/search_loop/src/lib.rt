//! The walk of a complete search through the tree of a task: depth first, in preorder, with a limit
//! on branches. What closes a node, and what is decided next, it asks of a guide.
#![tactic(auto)]

mod depth;
mod guide;
mod outcome;
mod write;

pub use depth::search;
pub use guide::Guide;
pub use outcome::Outcome;
