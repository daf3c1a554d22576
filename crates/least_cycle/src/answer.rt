ghost use Rattle.std.specs.Prelude.{◌≡◌, ◌<◌, ◌^◌, All, IfOk, length, map};
ghost use Rattle.least_cycle.specs.Answer.{IsAnswer};

use crate::components::component_ranks;
use crate::distances::distances;
use crate::ranks::least_level;
use crate::steps::least_way;
use flat_tables::FlatTable;
use sqlite_items::Items;
use std::alloc::{AllocError, Global};

/// Whether a directed graph has a cycle.
#[derive(Debug, Drop)]
pub enum Cycles {
    /// There is none: the ranks of the nodes, along which each edge rises. Nodes may have one rank.
    Ranked(Items<u32>),
    /// The nodes of a cycle, from the least node that lies on any, each followed by the node to
    /// which its edge leads; the last edge leads to the first node. It is a shortest cycle through
    /// that node, and of these the first in lexicographic order. An edge from a node to itself is a
    /// cycle of one node.
    Cycle(Items<u32>),
}

/// A cycle of the graph whose nodes are the numbers below `nodes`, or ranks of these. An edge goes
/// from the first node of its pair to the second, and may stand several times.
///
/// The time is linear in the number of nodes and edges.
pub fn least_cycle(alloc: Global, nodes: u32, edges: &[(u32, u32)]) -> Result<Cycles, AllocError>
    requires edges { All (λ edge. (edge.0 < nodes) × (edge.1 < nodes)) edges.now }
    requires few { length edges.now < 2 ^ 32 }
    ensures { IfOk result (IsAnswer nodes edges.now) }
{
    let nexts = FlatTable::from_pairs(alloc, edges, nodes)?;
    let ranks = component_ranks(alloc, nodes, &nexts)?;
    match least_level(edges, ranks.as_slice()) {
        None => Ok(Cycles::Ranked(Items::from_vec(ranks))),
        Some(first) => {
            let turned = turned(alloc, edges)?;
            let prevs = FlatTable::from_pairs(alloc, turned.as_slice(), nodes)?;
            let distances = distances(alloc, &prevs, first)?;
            let cycle = least_way(alloc, &nexts, first, distances.as_slice())?;
            Ok(Cycles::Cycle(cycle))
        }
    }
}

/// The edges the other way round.
fn turned(alloc: Global, edges: &[(u32, u32)]) -> Result<Vec<(u32, u32)>, AllocError>
    ensures { IfOk result (λ turned. turned.items ≡ map (λ edge. (edge.1, edge.0)) edges.now) }
{
    edges.iter().map(|edge| (edge.1, edge.0)).collect(alloc)
}
