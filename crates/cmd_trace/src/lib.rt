//! The command `trace ARCH BLOCK PROG`: the last pin of the walk back from each input pin of a
//! leaf.
#![tactic(auto)]

mod lines;
mod run;

pub use run::trace;
