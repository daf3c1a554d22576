use std::alloc::{AllocError, AllocFailed};
use thiserror::Error;

/// Why words are no command.
#[derive(Clone, Copy, Debug, PartialEq, Eq, Drop, Error)]
pub enum WordsError {
    /// The word at this place, counted from 0, can't stand, or it is missing.
    #[error("the words are no command")]
    Wrong { place: usize },
    #[error("out of memory")]
    OutOfMemory,
}

impl From<AllocError> for WordsError {
    ghost use Rattle.std.specs.Prelude.{◌≡◌};
    ghost use Rattle.run_words.specs.declared.error.WordsError.TheVariants.{OutOfMemory};

    ghost from_gives = { λ _ e. e ≡ OutOfMemory };

    fn from(_e: AllocError) -> WordsError {
        WordsError::OutOfMemory
    }
}

impl<T: Drop> From<AllocFailed<T>> for WordsError {
    ghost use Rattle.std.specs.Prelude.{◌≡◌};
    ghost use Rattle.run_words.specs.declared.error.WordsError.TheVariants.{OutOfMemory};

    ghost from_gives = { λ _ e. e ≡ OutOfMemory };

    fn from(_e: AllocFailed<T>) -> WordsError {
        WordsError::OutOfMemory
    }
}
