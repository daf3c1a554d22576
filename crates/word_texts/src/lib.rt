//! Texts of BLIF lines by their words (Berkeley Logic Interchange Format). There is no code here.
#![tactic(auto)]

mod laws;

pub use laws::text_words;
