//! What the metadata of one owner says (FPGA assembly metadata of VTR architectures): of a pb_type,
//! of a mode, and of an interconnect; or the first of its metas that breaks a rule.
#![tactic(auto)]

mod firsts;
mod inter;
mod laws;
mod owner;
mod types;

pub use inter::read_inter;
pub use laws::{luts_are_held, one_inter, one_owner};
pub use owner::{holds_luts, read_owner};
pub use types::{LutFields, OwnerMeta};
