use std::alloc::{AllocError, AllocFailed};
use thiserror::Error;

/// Why a tree was not read. Lines are counted from 1.
#[derive(Clone, Copy, Debug, PartialEq, Eq, Drop, Error)]
pub enum TreeError {
    /// 63: a line is of no form that a node has, or names what isn't there.
    #[error("line {line} is no node of a tree")]
    BadTree { line: u32 },
    /// 64: the lines end before the tree does, or go on behind it.
    #[error("the tree doesn't end before line {line}")]
    TreeShape { line: u32 },
    #[error("out of memory")]
    OutOfMemory,
}

impl<T: Drop> From<AllocFailed<T>> for TreeError {
    ghost use Rattle.std.specs.Prelude.{◌≡◌};
    ghost use Rattle.tree_text.specs.declared.error.TreeError.TheVariants.{OutOfMemory};

    ghost from_gives = { λ _ e. e ≡ OutOfMemory };

    fn from(_e: AllocFailed<T>) -> TreeError {
        TreeError::OutOfMemory
    }
}

impl From<AllocError> for TreeError {
    ghost use Rattle.std.specs.Prelude.{◌≡◌};
    ghost use Rattle.tree_text.specs.declared.error.TreeError.TheVariants.{OutOfMemory};

    ghost from_gives = { λ _ e. e ≡ OutOfMemory };

    fn from(_e: AllocError) -> TreeError {
        TreeError::OutOfMemory
    }
}
