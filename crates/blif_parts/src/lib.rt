//! What the lines of a BLIF model (Berkeley Logic Interchange Format) say together, before anything
//! is asked of the whole: its nets, its inputs and outputs, and its elements.
#![tactic(auto)]

mod parts;

pub use parts::ModelParts;
