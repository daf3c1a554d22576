//! What the root element of an architecture file says, as the parts of an architecture. No rule of
//! the format is tested here.
#![tactic(auto)]

mod block;
mod inter;
mod layout;
mod model;
mod part;
mod places;
mod port;
mod said;
mod tile;

pub use places::NamePlaces;
pub use said::arch_said;
