ghost use Rattle.std.specs.Prelude.{◌≡◌, ◌⊎◌, IfOk, IfErr};
ghost use Rattle.rr_items.specs.Features.{edge_features};
ghost use Rattle.rr_edges.specs.declared.error.EdgeError.TheVariants.{OutOfMemory};
ghost use Rattle.rr_edges.specs.EdgeItems.{Says, Fails, ends_of};
ghost use Rattle.rr_edges.specs.FileEdges.{edges_of, SaysEdges, Refuses};

use crate::error::EdgeError;
use crate::joints::Joint;
use crate::kept::{Edges, FileEdge};
use crate::named::named_edge;
use crate::table::{Direction, EndTable};
use elem_reading::kids_under;
use elem_text::Elem;
use rr_items::{EdgeEnds, features_of_edge};
use sqlite_items::Items;
use std::alloc::{AllocError, Global};
use vtr_base::Text;

/// The edges of a routing graph file (VPR's routing graph files: `rr_edges` with its `edge`s),
/// whose root this is, where the table knows the file's nodes and switches. It is refused for its
/// first edge that fails; at one edge, a bad one is told before its switch.
pub fn read_edges<T: EndTable>(alloc: Global, root: &Elem, table: &T) -> Result<Edges, EdgeError>
    ensures ok { IfOk result (λ edges.
        SaysEdges (T.known table.now) (edges_of root.now) edges.kept) }
    ensures refused { IfErr result (λ error.
        (error ≡ OutOfMemory) ⊎ Refuses (T.known table.now) (edges_of root.now) error) }
{
    let elems = kids_under(alloc, root, b"rr_edges", b"edge")?;
    let mut kept = Vec::new(alloc);
    for (index, edge) in elems.iter().enumerate() {
        if let Some(said) = read_edge(alloc, index, edge, table)? {
            kept.push(said)?;
        }
    }
    Ok(Edges {
        kept: Items::from_vec(kept),
    })
}

/// The edge that one `edge` says, of this index in the file, or that it is passed over.
fn read_edge<T: EndTable>(
    alloc: Global,
    index: usize,
    edge: &Elem,
    table: &T,
) -> Result<Option<FileEdge>, EdgeError>
    ensures ok { IfOk result (λ said. Says (T.known table.now) edge.now said) }
    ensures refused { IfErr result (λ error.
        (error ≡ OutOfMemory) ⊎ Fails (T.known table.now) index edge.now error) }
{
    let Some(named) = named_edge(edge, table) else {
        return Err(EdgeError::BadEdge { index });
    };
    match named.ways {
        Direction::BothWays => {
            return Err(EdgeError::SwitchKind {
                id: named.ends.switch,
            });
        }
        Direction::OneWay => {}
    }
    match named.joint {
        Joint::Kept => Ok(Some(kept_edge(alloc, named.ends, edge)?)),
        Joint::PassedOver => Ok(None),
    }
}

/// The edge of these ends, with its features.
fn kept_edge(alloc: Global, ends: EdgeEnds, edge: &Elem) -> Result<FileEdge, AllocError>
    ensures { IfOk result (λ said.
        (ends_of said ≡ ends) × (said.features ≡ edge_features edge.now)) }
{
    let features = Text::from_str(alloc, features_of_edge(edge))?;
    Ok(FileEdge {
        src: ends.source,
        dst: ends.sink,
        switch: ends.switch,
        features,
    })
}
