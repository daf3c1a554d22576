//! The command `refute ARCH BLIF BLOCK ATOMS TREE`: what a tree shows of the task of a list of
//! atoms.
#![tactic(auto)]

mod lines;
mod run;
mod tree;

pub use run::refute;
