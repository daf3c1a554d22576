//! Attributes of an element of element text, and numbers that they hold.
#![tactic(auto)]

mod attr;
mod number;
#[cfg(test)]
mod tests;

pub use attr::{attribute, has_tag, value_or_empty};
pub use number::{number_up_to, signed_number};
