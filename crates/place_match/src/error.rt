ghost use Rattle.std.specs.Prelude.{◌≡◌};
ghost use Rattle.place_match.specs.declared.error.PlaceError.TheVariants.{OutOfMemory};

use std::alloc::{AllocError, AllocFailed};
use thiserror::Error;

/// Why blocks have no places.
#[derive(Debug, Drop, Error)]
pub enum PlaceError {
    /// Numbers of blocks, and numbers of all the sites that fit any of these blocks. The blocks are
    /// one more than the sites, and no number stands there twice.
    #[error("blocks outnumber the sites that fit them")]
    NoRoom { blocks: Vec<u32>, sites: Vec<u32> },
    #[error("out of memory")]
    OutOfMemory,
}

impl From<AllocError> for PlaceError {
    ghost from_gives = { λ _ e. e ≡ OutOfMemory };

    fn from(_e: AllocError) -> PlaceError {
        PlaceError::OutOfMemory
    }
}

impl<T: Drop> From<AllocFailed<T>> for PlaceError {
    ghost from_gives = { λ _ e. e ≡ OutOfMemory };

    fn from(_e: AllocFailed<T>) -> PlaceError {
        PlaceError::OutOfMemory
    }
}
