//! The rules of an architecture file that tie its parts together by name: tiles to block types, and
//! boxes to models.
#![tactic(auto)]

mod check;
mod error;
mod laws;
mod named;
mod site;

pub use check::check_links;
pub use error::LinkError;
pub use laws::law_of_the_links;
