use std::alloc::{AllocError, AllocFailed};
use thiserror::Error;

/// Why a programming was not read. Lines are counted from 1, empty ones too.
#[derive(Clone, Copy, Debug, PartialEq, Eq, Drop, Error)]
pub enum ProgError {
    /// 51: a line is of no form that a programming has.
    #[error("line {line} is no line of a programming")]
    BadLine { line: u32 },
    /// 52: a line names a site that isn't there.
    #[error("line {line} names no site")]
    NoSuchSite { line: u32 },
    /// 53: a line names a mode, an edge, an input or a table that its site doesn't have.
    #[error("line {line} names no choice of its site")]
    NoSuchChoice { line: u32 },
    /// 54: a line sets a site that an earlier line sets.
    #[error("line {line} sets a site again")]
    TwiceSet { line: u32 },
    #[error("out of memory")]
    OutOfMemory,
}

impl<T: Drop> From<AllocFailed<T>> for ProgError {
    ghost use Rattle.std.specs.Prelude.{◌≡◌};
    ghost use Rattle.prog_text.specs.declared.error.ProgError.TheVariants.{OutOfMemory};

    ghost from_gives = { λ _ e. e ≡ OutOfMemory };

    fn from(_e: AllocFailed<T>) -> ProgError {
        ProgError::OutOfMemory
    }
}

impl From<AllocError> for ProgError {
    ghost use Rattle.std.specs.Prelude.{◌≡◌};
    ghost use Rattle.prog_text.specs.declared.error.ProgError.TheVariants.{OutOfMemory};

    ghost from_gives = { λ _ e. e ≡ OutOfMemory };

    fn from(_e: AllocError) -> ProgError {
        ProgError::OutOfMemory
    }
}
