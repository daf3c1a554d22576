//! Elements of a BLIF model (Berkeley Logic Interchange Format) as they are put together: pins of
//! boxes by nets, rows of covers, parameters, and the last element, to which lines may still add.
#![tactic(auto)]

mod elem;
mod laws;
mod open;
mod params;
mod placing;
mod rows;

pub use elem::{Elem, PinAt};
pub use laws::outputs_are_nets;
pub use open::{Open, reopen};
pub use params::Params;
pub use placing::{cell_name, output_nets, place_pins};
pub use rows::put_row;
