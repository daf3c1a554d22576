use meta_lines::LineError;
use std::alloc::{AllocError, AllocFailed};
use thiserror::Error;

/// Why the prefixes of a layout were not read.
#[derive(Clone, Copy, Debug, PartialEq, Eq, Drop, Error)]
pub enum SinglesError {
    /// The `fasm_prefix` of the `single` of this place in the layout, from 0, is refused.
    #[error("the prefix of a single is refused: {error}")]
    Refused { single: u32, error: LineError },
    #[error("out of memory")]
    OutOfMemory,
}

impl<T: Drop> From<AllocFailed<T>> for SinglesError {
    ghost use Rattle.std.specs.Prelude.{◌≡◌};
    ghost use Rattle.loc_prefixes.specs.declared.error.SinglesError.TheVariants.{OutOfMemory};

    ghost from_gives = { λ _ e. e ≡ OutOfMemory };

    fn from(_e: AllocFailed<T>) -> SinglesError {
        SinglesError::OutOfMemory
    }
}

impl From<AllocError> for SinglesError {
    ghost use Rattle.std.specs.Prelude.{◌≡◌};
    ghost use Rattle.loc_prefixes.specs.declared.error.SinglesError.TheVariants.{OutOfMemory};

    ghost from_gives = { λ _ e. e ≡ OutOfMemory };

    fn from(_e: AllocError) -> SinglesError {
        SinglesError::OutOfMemory
    }
}
