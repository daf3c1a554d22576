ghost use Rattle.std.specs.Prelude.{◌≡◌};
ghost use Rattle.rr_places.specs.declared.error.PlaceError.TheVariants.{OutOfMemory};

use std::alloc::{AllocError, AllocFailed};
use thiserror::Error;
use vtr_base::{Place, Text};

/// Why the switches and the block types of a routing graph file were not read.
#[derive(Debug, Drop, Error)]
pub enum PlaceError {
    /// A block type has the name of no tile.
    #[error("block type {id} is unknown")]
    UnknownBlock { id: u32 },
    /// A pin's text names no pin of its tile, or its number stands twice in the block type.
    #[error("a pin's text names no pin of its tile")]
    UnknownPin { text: Text },
    /// A switch, block type or pin lacks an attribute, has a number that isn't allowed, or has an id
    /// seen before.
    #[error("a switch, block type or pin is not well formed")]
    BadItem { place: Place },
    #[error("out of memory")]
    OutOfMemory,
}

impl From<AllocError> for PlaceError {
    ghost from_gives = { λ _ e. e ≡ OutOfMemory };

    fn from(_e: AllocError) -> PlaceError {
        PlaceError::OutOfMemory
    }
}

impl<T: Drop> From<AllocFailed<T>> for PlaceError {
    ghost from_gives = { λ _ e. e ≡ OutOfMemory };

    fn from(_e: AllocFailed<T>) -> PlaceError {
        PlaceError::OutOfMemory
    }
}
