ghost use Rattle.std.specs.Prelude.{◌≡◌};
ghost use Rattle.rr_edges.specs.declared.error.EdgeError.TheVariants.{OutOfMemory};

use std::alloc::{AllocError, AllocFailed};
use thiserror::Error;

/// The first edge of a routing graph file that is refused.
#[derive(Debug, Drop, Error)]
pub enum EdgeError {
    /// The edge lacks an attribute, one of them is no id, the edge names no node or no switch of
    /// the file, or it joins kinds of nodes that no edge joins. `index` is the edge's in the file,
    /// from 0.
    #[error("an edge is none")]
    BadEdge { index: usize },
    /// The edge uses a switch that leads both ways. `id` is the switch's.
    #[error("an edge uses a switch that leads both ways")]
    SwitchKind { id: u32 },
    #[error("out of memory")]
    OutOfMemory,
}

impl From<AllocError> for EdgeError {
    ghost from_gives = { λ _ e. e ≡ OutOfMemory };

    fn from(_e: AllocError) -> EdgeError {
        EdgeError::OutOfMemory
    }
}

impl<T: Drop> From<AllocFailed<T>> for EdgeError {
    ghost from_gives = { λ _ e. e ≡ OutOfMemory };

    fn from(_e: AllocFailed<T>) -> EdgeError {
        EdgeError::OutOfMemory
    }
}
