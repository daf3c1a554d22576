//! Laws of the names of nets and atoms: each is a word. There is no code here.
#![tactic(auto)]

mod laws;

pub use laws::names_are_words;
