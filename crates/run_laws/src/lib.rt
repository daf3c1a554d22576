//! Laws of fetches, for commands that read several files: what a part of a run tells of the whole
//! run, and which fetch stops for want of memory alone. There is no code here.
#![tactic(auto)]

mod fetches;

pub use fetches::fetch_laws;
