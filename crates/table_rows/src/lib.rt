//! Rows of a cover that say a given table (Berkeley Logic Interchange Format, "Logic gates"). There
//! is no code here.
#![tactic(auto)]

mod laws;

pub use laws::rows_say_table;
