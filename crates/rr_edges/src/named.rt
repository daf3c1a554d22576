ghost use Rattle.std.specs.Prelude.{MatchOption};
ghost use Rattle.rr_edges.specs.EdgeItems.{Names, IsBad};

use crate::joints::{Joint, joint_of};
use crate::table::{Direction, EndTable};
use elem_text::Elem;
use rr_items::{EdgeEnds, edge_ends};

/// What an `edge` names: its ends, what it is for, and the ways that its switch leads.
#[derive(Clone, Copy)]
pub(crate) struct NamedEdge {
    pub ends: EdgeEnds,
    pub joint: Joint,
    pub ways: Direction,
}

/// What the edge names, where all of it is there and the edge may join its nodes.
pub(crate) fn named_edge<T: EndTable>(edge: &Elem, table: &T) -> Option<NamedEdge>
    ensures { MatchOption result (IsBad (T.known table.now) edge.now)
        (λ named. Names (T.known table.now) edge.now named.ends named.joint named.ways) }
{
    let ends = edge_ends(edge)?;
    let from = table.kind_of_node(ends.source)?;
    let to = table.kind_of_node(ends.sink)?;
    let ways = table.switch_of(ends.switch)?;
    let joint = joint_of(from, to)?;
    Some(NamedEdge { ends, joint, ways })
}
