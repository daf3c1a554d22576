//! What is wrong with nets and atoms as a whole: a net without a driver, and a cycle through LUTs
//! (Berkeley Logic Interchange Format, "Models", "Logic gates").
#![tactic(auto)]

mod drivers;
mod feeds;
mod laws;
mod loops;

pub use drivers::{first_unmade, makers_of};
pub use laws::one_fault;
pub use loops::least_loop;
