//! Whether the fields that an owner's `fasm_lut` gives have as many bits as the tables of the LUTs
//! that use them (FPGA assembly metadata of VTR architectures).
#![tactic(auto)]

mod kids;
mod lines;
mod misfit;
mod reach;
mod sizes;
mod table;

pub use misfit::{mode_misfit, pb_type_misfit};
