ghost use Rattle.std.specs.Prelude.{◌≡◌};
ghost use Rattle.arch_rules.specs.declared.error.RuleError.TheVariants.{OutOfMemory};

use std::alloc::{AllocError, AllocFailed};
use thiserror::Error;
use vtr_base::{Place, Text};

/// A limit of architecture files.
#[derive(Clone, Copy, Debug, PartialEq, Eq)]
pub enum LimitKind {
    /// A LUT has at most 8 inputs.
    Inputs,
    /// A port has at most 65,536 pins.
    NumPins,
    /// A pb_type stands at most 65,536 times in its parent.
    NumPb,
    /// A place of a tile has at most 65,536 locations.
    Capacity,
}

/// The first rule that an architecture file breaks, with the place of the element that breaks it.
#[derive(Debug, Drop, Error)]
pub enum RuleError {
    /// An element stands where only those that are read, and those known not to be, may stand.
    #[error("an element isn't known there")]
    UnknownElement { name: Text, place: Place },
    /// A required attribute isn't there. `name` is the attribute's.
    #[error("an attribute is missing")]
    MissingAttr { name: Text, place: Place },
    /// A number isn't decimal digits in its range, or a name has a character that it may not have.
    #[error("a number or a name is not of its form")]
    BadNumber { place: Place },
    /// Two siblings of one sort have this name, or a child has its parent's.
    #[error("a name stands twice")]
    SameName { name: Text, place: Place },
    /// A form that is left out. `what` is the name of the element at which it stands.
    #[error("a form is not supported")]
    Unsupported { what: Text, place: Place },
    #[error("a limit is passed")]
    Limit { which: LimitKind, place: Place },
    #[error("out of memory")]
    OutOfMemory,
}

impl From<AllocError> for RuleError {
    ghost from_gives = { λ _ e. e ≡ OutOfMemory };

    fn from(_e: AllocError) -> RuleError {
        RuleError::OutOfMemory
    }
}

impl<T: Drop> From<AllocFailed<T>> for RuleError {
    ghost from_gives = { λ _ e. e ≡ OutOfMemory };

    fn from(_e: AllocFailed<T>) -> RuleError {
        RuleError::OutOfMemory
    }
}
