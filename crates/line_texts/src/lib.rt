//! Texts of BLIF files (Berkeley Logic Interchange Format) by their lines. There is no code here.
#![tactic(auto)]

mod laws;

pub use laws::text_lines;
