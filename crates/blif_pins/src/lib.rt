//! Boxes of a BLIF file (Berkeley Logic Interchange Format): the pins of a `.subckt`, by the ports
//! of its model.
#![tactic(auto)]

mod keys;
mod laws;
mod models;
mod pins;
mod ports;

pub use laws::one_reading;
pub use models::BoxModels;
pub use pins::BoxPin;
