ghost use Rattle.std.specs.Prelude.{◌≡◌};
ghost use Rattle.pb_expand.specs.declared.error.ExpandError.TheVariants.{OutOfMemory};
ghost use Rattle.pb_expand.specs.declared.error.SizeError.TheVariants as size;
ghost use Rattle.pb_expand.specs.Refusals.{error_of_size, error_of_edge};

use mode_edges::EdgeError;
use std::alloc::{AllocError, AllocFailed};
use thiserror::Error;
use vtr_base::Text;

/// Why a block type wasn't expanded. An interconnect is told by its name.
#[derive(Debug, Drop, Error)]
pub enum ExpandError {
    /// A word of an interconnect names no pin, or a pin on the wrong side.
    #[error("an interconnect names no pin, or a pin on the wrong side")]
    NoSuchPin { inter: Text },
    /// A `direct` names lists of two lengths.
    #[error("a direct interconnect names lists of two lengths")]
    Width { inter: Text },
    /// A word of a `mux` names more than one pin, or its output isn't one pin.
    #[error("a mux names more than one pin in a word, or not one output pin")]
    WideMux { inter: Text },
    /// There are more than 2^20 instances, 2^20 pins or 2^22 edges.
    #[error("the block type is too large")]
    TooMany,
    #[error("out of memory")]
    OutOfMemory,
}

impl From<AllocError> for ExpandError {
    ghost from_gives = { λ _ e. e ≡ OutOfMemory };

    fn from(_e: AllocError) -> ExpandError {
        ExpandError::OutOfMemory
    }
}

impl<T: Drop> From<AllocFailed<T>> for ExpandError {
    ghost from_gives = { λ _ e. e ≡ OutOfMemory };

    fn from(_e: AllocFailed<T>) -> ExpandError {
        ExpandError::OutOfMemory
    }
}

impl From<EdgeError> for ExpandError {
    ghost from_gives = { λ e told. told ≡ error_of_edge e };

    fn from(e: EdgeError) -> ExpandError {
        match e {
            EdgeError::NoSuchPin { inter } => ExpandError::NoSuchPin { inter },
            EdgeError::Width { inter } => ExpandError::Width { inter },
            EdgeError::WideMux { inter } => ExpandError::WideMux { inter },
            EdgeError::OutOfMemory => ExpandError::OutOfMemory,
        }
    }
}

impl From<SizeError> for ExpandError {
    ghost from_gives = { λ e told. told ≡ error_of_size e };

    fn from(e: SizeError) -> ExpandError {
        match e {
            SizeError::TooMany => ExpandError::TooMany,
            SizeError::OutOfMemory => ExpandError::OutOfMemory,
        }
    }
}

/// Why the instances, pins or edges of a block type were not made.
#[derive(Clone, Copy, Debug, PartialEq, Eq, Drop, Error)]
pub(crate) enum SizeError {
    /// There are more of them than may be.
    #[error("the block type is too large")]
    TooMany,
    #[error("out of memory")]
    OutOfMemory,
}

impl From<AllocError> for SizeError {
    ghost from_gives = { λ _ e. e ≡ size.OutOfMemory };

    fn from(_e: AllocError) -> SizeError {
        SizeError::OutOfMemory
    }
}

impl<T: Drop> From<AllocFailed<T>> for SizeError {
    ghost from_gives = { λ _ e. e ≡ size.OutOfMemory };

    fn from(_e: AllocFailed<T>) -> SizeError {
        SizeError::OutOfMemory
    }
}
