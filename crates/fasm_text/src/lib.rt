//! FASM text (FPGA Assembly): the lines that say which bits of features are set, and a writer of
//! such lines.
#![tactic(auto)]

mod digits;
mod error;
mod field;
mod laws;
mod line;
mod names;
mod parts;
mod read;
mod set_bits;
mod telling;
mod value;
mod writer;

pub use error::FasmError;
pub use field::{Range, bit_number, read_range};
pub use laws::{one_range, one_reading};
pub use names::is_feature_name;
pub use read::read_fasm;
pub use set_bits::SetBits;
pub use writer::LineWriter;
