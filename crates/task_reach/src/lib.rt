//! What decisions leave open around a need of a task: the leaves of an atom, the pins at which the
//! need may be met, the steps back from a pin, and whether the net may come from a pin.
#![tactic(auto)]

mod active;
mod bits;
mod conns;
mod ends;
mod leaves;
mod roots;
mod starts;
mod steps;

pub use active::is_active;
pub use bits::put_pins;
pub use ends::put_ends;
pub use leaves::put_leaves;
pub use starts::{may_start, net_of};
pub use steps::put_steps;
