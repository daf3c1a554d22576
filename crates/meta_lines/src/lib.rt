//! Lines of FPGA assembly metadata, as one owner has them: what each `meta` says, or the first line
//! that breaks a rule.
#![tactic(auto)]

mod error;
mod features;
mod fields;
mod forms;
mod laws;
mod mux;
mod only;
mod prefix;
mod types;

pub use error::LineError;
pub use features::read_features;
pub use fields::{read_children, read_params};
pub use laws::one_meaning;
pub use mux::read_mux;
pub use only::{read_lut, read_type};
pub use prefix::read_prefix;
pub use types::{ChildField, Feature, Field, LineField, LutType, ParamField, PinFeatures};
