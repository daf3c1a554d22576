//! The complete search of a task: a realisation, a tree that refutes it, or a tree that is spent.
#![tactic(auto)]

mod answer;
mod find;
mod sets;

pub use answer::Answer;
pub use find::legalise;
