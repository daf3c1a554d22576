//! What the metadata of all owners in a block type says (FPGA assembly metadata of VTR
//! architectures), in the order in which it is read; or the first owner whose metadata is refused.
#![tactic(auto)]

mod error;
mod inters;
mod laws;
mod owner;
mod types;
mod walk;
mod way;

pub use error::MetaError;
pub use laws::one_block;
pub use types::OwnerSaid;
pub use walk::read_block;
