//! The bits that each choice of a block type's sites sets, by address and without the prefix of a
//! location (FPGA assembly metadata of VTR architectures): the definitions, and that they say one
//! thing.
#![tactic(auto)]

mod laws;

pub use laws::{each_way_has_words, one_list_of_bits};
