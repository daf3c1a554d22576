//! Variables of a task on the way down a tree: whether one is live and undecided, and which options
//! it has left, one after the other.
#![tactic(auto)]

mod count;
mod live;
mod next;
mod occupant;

pub use count::option_count;
pub use live::{is_live_var, is_root_input, is_undecided};
pub use next::{first_option, next_option};
