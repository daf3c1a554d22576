ghost use Rattle.std.specs.Prelude.{◌≡◌};
ghost use Rattle.rr_grid.specs.declared.error.GridError.TheVariants.{OutOfMemory};

use std::alloc::{AllocError, AllocFailed};
use thiserror::Error;
use vtr_base::Place;

/// Why the grid of a routing graph file is refused.
#[derive(Clone, Copy, Debug, PartialEq, Eq, Error)]
pub enum GridError {
    /// The place's block type, of this id, is none of the file's.
    #[error("a place of the grid names no block type")]
    UnknownBlock { id: u32 },
    /// The place at (x, y) was given before, or where its offsets lead there is no root of the same
    /// block type.
    #[error("a place of the grid is given twice, or lacks its root")]
    BadGrid { x: u32, y: u32 },
    /// The place stands in another layer than 0.
    #[error("a place of the grid stands in another layer than 0")]
    Layer,
    /// The `grid_loc` at this place of the file lacks a number, or one isn't below 2^31.
    #[error("a place of the grid is broken")]
    BadItem { place: Place },
    #[error("out of memory")]
    OutOfMemory,
}

impl From<AllocError> for GridError {
    ghost from_gives = { λ _ e. e ≡ OutOfMemory };

    fn from(_e: AllocError) -> GridError {
        GridError::OutOfMemory
    }
}

impl<T: Drop> From<AllocFailed<T>> for GridError {
    ghost from_gives = { λ _ e. e ≡ OutOfMemory };

    fn from(_e: AllocFailed<T>) -> GridError {
        GridError::OutOfMemory
    }
}
