//! Laws of the metadata of a block type whose owners all say something (FPGA assembly metadata of
//! VTR architectures): what the owners at each address say, and the field of each LUT.
#![tactic(auto)]

mod laws;

pub use laws::{fields_fit, owners_say};
