use std::alloc::{AllocError, AllocFailed};
use thiserror::Error;

/// Why a text of metadata was not read. Lines are counted from 1 in the text, empty ones too; the
/// count stands still at 4,294,967,295.
#[derive(Clone, Copy, Debug, PartialEq, Eq, Drop, Error)]
pub enum LineError {
    /// 101: the line doesn't have the form of its sort, or it is one too many.
    #[error("line {line} has no form of its metadata")]
    BadLine { line: u32 },
    /// 102: there are more or fewer prefixes than instances.
    #[error("the number of prefixes isn't that of the instances")]
    PrefixCount,
    /// 103: the line names no input of the interconnect.
    #[error("line {line} names no input of the interconnect")]
    UnknownInput { line: u32 },
    /// 105: a name of the line is no feature's name.
    #[error("line {line} has a name that is no feature's name")]
    FeatureName { line: u32 },
    #[error("out of memory")]
    OutOfMemory,
}

impl<T: Drop> From<AllocFailed<T>> for LineError {
    ghost use Rattle.std.specs.Prelude.{◌≡◌};
    ghost use Rattle.meta_lines.specs.declared.error.LineError.TheVariants.{OutOfMemory};

    ghost from_gives = { λ _ e. e ≡ OutOfMemory };

    fn from(_e: AllocFailed<T>) -> LineError {
        LineError::OutOfMemory
    }
}

impl From<AllocError> for LineError {
    ghost use Rattle.std.specs.Prelude.{◌≡◌};
    ghost use Rattle.meta_lines.specs.declared.error.LineError.TheVariants.{OutOfMemory};

    ghost from_gives = { λ _ e. e ≡ OutOfMemory };

    fn from(_e: AllocError) -> LineError {
        LineError::OutOfMemory
    }
}
