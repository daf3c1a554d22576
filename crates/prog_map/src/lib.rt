//! Programmings of one block type: which mode each instance is set to, which edge each pin takes,
//! and where the chosen edges lead back to.
#![tactic(auto)]

mod back;
mod busy;
mod choice;
mod ends;
mod groups;
mod laws;
mod leaf;
mod live;
mod order;
mod prog;
mod setting;
mod sites;
mod walk;

pub use back::follow;
pub use choice::{LSite, LutChoice};
pub use groups::{Groups, ModeAt};
pub use laws::{setting_laws, step_laws};
pub use leaf::{Inputs, inputs_of, is_leaf, is_lut};
pub use live::{live_instances, live_laws};
pub use order::Order;
pub use prog::Prog;
pub use setting::Setting;
pub use sites::sites_of;
pub use walk::last_pins;
