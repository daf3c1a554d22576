//! Ways of a task's needs: a search back from the pins at which a need may be met, along steps that
//! may be taken, to one from which its net may come; and the leaf of a tree that shows that there is
//! none.
#![tactic(auto)]

mod cuts;
mod search;

pub use cuts::find_cut;
pub use search::reach;
