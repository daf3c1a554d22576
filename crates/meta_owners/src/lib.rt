//! The owners of metadata in a block type, in the order in which their metadata is read.
#![tactic(auto)]

mod walk;

pub use walk::{OwnerStep, owners};
