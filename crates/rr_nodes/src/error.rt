ghost use Rattle.std.specs.Prelude.{◌≡◌};
ghost use Rattle.rr_nodes.specs.declared.error.NodeError.TheVariants.{OutOfMemory};

use std::alloc::AllocError;
use thiserror::Error;

/// Why the nodes of a routing graph file are refused.
#[derive(Clone, Copy, Debug, PartialEq, Eq, Error)]
pub enum NodeError {
    /// The element is no node, or its id stood at an earlier one. `id` is the node's id, or, where
    /// that is missing or no number below 2^31, the node's index in the file from 0.
    #[error("a node of the routing graph is broken, or its id stood before")]
    BadNode { id: u32 },
    /// The node stands in another layer than 0.
    #[error("a node of the routing graph stands in another layer than 0")]
    Layer,
    /// An OPIN is no output pin of the block at its low corner, or an IPIN no other pin of it.
    #[error("a node of the routing graph is no pin of the block at its place")]
    NodeWithoutPin { id: u32 },
    #[error("out of memory")]
    OutOfMemory,
}

impl From<AllocError> for NodeError {
    ghost from_gives = { λ _ e. e ≡ OutOfMemory };

    fn from(_e: AllocError) -> NodeError {
        NodeError::OutOfMemory
    }
}
