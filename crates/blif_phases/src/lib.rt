//! Where the lines of a BLIF file (Berkeley Logic Interchange Format) stand: in its model, in front
//! of it, behind it, or in a later model, which has to be a black box and is passed over.
#![tactic(auto)]

mod laws;
mod next;
mod over;
mod phase;
mod reading;
mod stop;

pub use laws::one_reading;
pub use phase::Phase;
pub use reading::step;
pub use stop::Stop;
