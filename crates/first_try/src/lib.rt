//! A first try at a task: modes, homes and ways are decided one after the other as they look best,
//! and where that ends well no search is needed.
#![tactic(auto)]

mod decide;
mod modes;
mod places;
mod routes;
mod tries;

pub use tries::first_try;
