ghost use Rattle.std.specs.Prelude.{◌≡◌, ◌<◌, ◌+◌, ◌*◌, ◌^◌, IfOk, length};
ghost use Rattle.std.specs.List.{All, range_with_len};
ghost use Rattle.crowd_cuts.specs.Answer.{IsFlow, HasNoPathsAtCut};

use crate::cut::cut_of;
use crate::placing::unpassed;
use crate::trails::trails_of;
use crate::{Flow, Plain};
use sqlite_items::Items;
use std::alloc::{AllocError, Global};

/// That many paths from starts to ends that share no node, or a cut where there aren't as many.
/// Starts and ends may be listed several times, and a node that is both is a path by itself. With a
/// count of 0 the answer is no path.
///
/// The time is that of as many searches through nodes and edges as paths are wanted.
pub fn disjoint_paths(
    alloc: Global,
    graph: &Plain,
    starts: &[u32],
    ends: &[u32],
    count: u32,
) -> Result<Flow, AllocError>
    requires edges { All (λ edge. (edge.0 < graph.now.nodes) × (edge.1 < graph.now.nodes))
        graph.now.edges }
    requires starts { All (λ start. start < graph.now.nodes) starts.now }
    requires ends { All (λ end. end < graph.now.nodes) ends.now }
    requires few { 2 * graph.now.nodes < 2 ^ 32 }
    ensures flow { IfOk result (IsFlow graph.now.nodes graph.now.edges starts.now ends.now count) }
    ensures no_paths { IfOk result (HasNoPathsAtCut graph.now.edges starts.now ends.now count) }
{
    if count > graph.nodes {
        return Ok(Flow::CutSet(all_nodes(alloc, graph.nodes)?));
    }
    let mut placing = unpassed(alloc, graph, starts, ends, count)?;
    match placing.complete(alloc)? {
        None => {
            let places = placing.answer(alloc)?;
            let paths = trails_of(alloc, graph.nodes, count, places.as_slice())?;
            Ok(Flow::Paths(paths))
        }
        Some(stuck) => {
            let cut = cut_of(
                alloc,
                graph.nodes,
                stuck.lefts.as_slice(),
                stuck.rights.as_slice(),
            )?;
            Ok(Flow::CutSet(cut))
        }
    }
}

/// The nodes of a graph, all of which every path meets.
fn all_nodes(alloc: Global, nodes: u32) -> Result<Items<u32>, AllocError>
    ensures { IfOk result (λ cut. cut ≡ range_with_len 0 nodes) }
{
    let nodes = (0..nodes).collect(alloc)?;
    Ok(Items::from_vec(nodes))
}
