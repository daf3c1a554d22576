//! What was decided of a task, as a trail of decisions that is looked up by number and taken back
//! from its end.
#![tactic(auto)]

mod live;
mod trail;

pub use live::{is_live, is_open, open_laws};
pub use trail::{Pick, Trail};
