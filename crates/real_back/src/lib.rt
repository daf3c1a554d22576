//! The round trip of realisations: what is written of one spells it. There is no code here.
#![tactic(auto)]

mod laws;

pub use laws::{realised_is_there, spelled_is_there, written_spells};
