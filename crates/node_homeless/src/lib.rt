//! Whether more atoms are given than leaves are open to them.
#![tactic(auto)]

mod homeless;

pub use homeless::is_homeless;
