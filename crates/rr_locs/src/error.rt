ghost use Rattle.std.specs.Prelude.{◌≡◌};
ghost use Rattle.rr_locs.specs.declared.error.LocsError.TheVariants.{OutOfMemory};

use std::alloc::AllocError;
use thiserror::Error;

/// Why a grid has no list of locations.
#[derive(Clone, Copy, Debug, PartialEq, Eq, Error)]
pub enum LocsError {
    /// The capacities of all roots sum to more than 2^20.
    #[error("the grid has more than 1048576 locations")]
    TooMany,
    #[error("out of memory")]
    OutOfMemory,
}

impl From<AllocError> for LocsError {
    ghost from_gives = { λ _ e. e ≡ OutOfMemory };

    fn from(_e: AllocError) -> LocsError {
        LocsError::OutOfMemory
    }
}
