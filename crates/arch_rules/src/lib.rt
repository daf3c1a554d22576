//! The rules of architecture files: what each element is, and the first rule that a file breaks.
#![tactic(auto)]

mod attr;
mod check;
mod error;
mod form;
mod laws;
mod name;
mod number;
mod role;
mod rules;
mod shape;
mod taken;
mod walk;

pub use attr::{attribute, how_many, is_named, own_name};
pub use error::{LimitKind, RuleError};
pub use laws::law_of_the_rules;
pub use name::{is_plain_name, is_unbroken_name};
pub use number::{
    behind_minus, is_coordinate, is_count, is_large, is_one, is_over_eight, is_priority,
    number_up_to,
};
pub use role::{Role, Sort};
pub use walk::check_file;
