ghost use Rattle.std.specs.Prelude.{◌≡◌};
ghost use Rattle.rr_files.specs.Refusing.{error_of_elem, error_of_place, error_of_grid, error_of_locs, error_of_node, error_of_edge};
ghost use Rattle.rr_files.specs.declared.error.RrError.TheVariants.{OutOfMemory};

use elem_text::ElemError;
use rr_edges::EdgeError;
use rr_grid::GridError;
use rr_locs::LocsError;
use rr_nodes::NodeError;
use rr_places::PlaceError;
use std::alloc::AllocError;
use thiserror::Error;
use vtr_base::{Place, Text};

/// A limit of routing graphs: the summed capacity of all locations is 2^20 at most.
#[derive(Clone, Copy, Debug, PartialEq, Eq)]
pub enum RrLimit {
    Capacity,
}

/// Why a file gives no routing graph: the first rule that it breaks, in the order switches, block
/// types, grid, nodes, edges, and in each part in the file's order. A place is that of the element
/// at which the rule fails.
#[derive(Debug, Drop, Error)]
pub enum RrError {
    /// 1: the bytes are no element. The place is that of the first failing piece, or the one behind
    /// the last byte where the file ends too early.
    #[error("the text is no element")]
    Broken { place: Place },
    /// 2: an element opens at level 65.
    #[error("elements are nested more than 64 deep")]
    Deep,
    /// 3: the bytes are not UTF-8.
    #[error("the file is not UTF-8")]
    NotUtf8,
    /// 30: a limit is passed, told after the last place of the grid.
    #[error("a limit is passed")]
    Limit { which: RrLimit },
    /// 31: a node lacks something or has a number, type or place that isn't one, or its id stood
    /// before. `id` is the node's, or, where that is missing or bad, its index from 0.
    #[error("a node is broken, or its id stood before")]
    BadNode { id: u32 },
    /// 32: an edge lacks an attribute, names no node or switch, or joins kinds of nodes that no
    /// edge joins. `index` counts all edges of the file from 0.
    #[error("an edge is broken")]
    BadEdge { index: usize },
    /// 33: an edge uses a switch that leads both ways. `id` is the switch's.
    #[error("an edge uses a switch that leads both ways")]
    SwitchKind { id: u32 },
    /// 34: a block type's name is neither that of a tile nor `EMPTY`, or a place of the grid names
    /// no block type. `id` is the block type's.
    #[error("a block type is unknown")]
    UnknownBlock { id: u32 },
    /// 35: a pin's text names no pin of its tile, or its number stands twice.
    #[error("a pin is unknown")]
    UnknownPin { text: Text },
    /// 36: an OPIN is no output pin of the block at its place, or an IPIN no other pin of it.
    #[error("a node is no pin of the block at its place")]
    NodeWithoutPin { id: u32 },
    /// 37: a place of the grid is given twice, or its root isn't a root of the same block type.
    #[error("a place of the grid is given twice, or lacks its root")]
    BadGrid { x: u32, y: u32 },
    /// 38: another layer than 0 stands in the grid or at a node.
    #[error("there is another layer than 0")]
    Layer,
    /// 39: the root isn't `rr_graph`; or a switch, block type, pin or place of the grid lacks an
    /// attribute or has a number that isn't allowed, or a switch or block type an id seen before.
    #[error("an element is broken")]
    BadItem { place: Place },
    #[error("out of memory")]
    OutOfMemory,
}

impl From<AllocError> for RrError {
    ghost from_gives = { λ _ e. e ≡ OutOfMemory };

    fn from(_e: AllocError) -> RrError {
        RrError::OutOfMemory
    }
}

impl From<ElemError> for RrError {
    ghost from_gives = { λ e told. told ≡ error_of_elem e };

    fn from(e: ElemError) -> RrError {
        match e {
            ElemError::NotUtf8 => RrError::NotUtf8,
            ElemError::Deep => RrError::Deep,
            ElemError::Broken { place } => RrError::Broken { place },
            ElemError::OutOfMemory => RrError::OutOfMemory,
        }
    }
}

impl From<PlaceError> for RrError {
    ghost from_gives = { λ e told. told ≡ error_of_place e };

    fn from(e: PlaceError) -> RrError {
        match e {
            PlaceError::UnknownBlock { id } => RrError::UnknownBlock { id },
            PlaceError::UnknownPin { text } => RrError::UnknownPin { text },
            PlaceError::BadItem { place } => RrError::BadItem { place },
            PlaceError::OutOfMemory => RrError::OutOfMemory,
        }
    }
}

impl From<GridError> for RrError {
    ghost from_gives = { λ e told. told ≡ error_of_grid e };

    fn from(e: GridError) -> RrError {
        match e {
            GridError::UnknownBlock { id } => RrError::UnknownBlock { id },
            GridError::BadGrid { x, y } => RrError::BadGrid { x, y },
            GridError::Layer => RrError::Layer,
            GridError::BadItem { place } => RrError::BadItem { place },
            GridError::OutOfMemory => RrError::OutOfMemory,
        }
    }
}

impl From<LocsError> for RrError {
    ghost from_gives = { λ e told. told ≡ error_of_locs e };

    fn from(e: LocsError) -> RrError {
        match e {
            LocsError::TooMany => RrError::Limit {
                which: RrLimit::Capacity,
            },
            LocsError::OutOfMemory => RrError::OutOfMemory,
        }
    }
}

impl From<NodeError> for RrError {
    ghost from_gives = { λ e told. told ≡ error_of_node e };

    fn from(e: NodeError) -> RrError {
        match e {
            NodeError::BadNode { id } => RrError::BadNode { id },
            NodeError::Layer => RrError::Layer,
            NodeError::NodeWithoutPin { id } => RrError::NodeWithoutPin { id },
            NodeError::OutOfMemory => RrError::OutOfMemory,
        }
    }
}

impl From<EdgeError> for RrError {
    ghost from_gives = { λ e told. told ≡ error_of_edge e };

    fn from(e: EdgeError) -> RrError {
        match e {
            EdgeError::BadEdge { index } => RrError::BadEdge { index },
            EdgeError::SwitchKind { id } => RrError::SwitchKind { id },
            EdgeError::OutOfMemory => RrError::OutOfMemory,
        }
    }
}
