ghost use Rattle.std.specs.Prelude.{◌≡◌, ◌<◌, ◌≤◌, ◌+◌, ◌*◌, ◌^◌, ◌++◌, IfOk, OnOk, length, map};
ghost use Rattle.std.specs.List.{All, range_with_len};
ghost use Rattle.crowd_cuts.specs.Reduction.{IsReduced, pairs_of, rows_of};

use crate::Plain;
use matching::Matching;
use std::alloc::{AllocError, Global};

/// Each node placed on itself, as where no path passes, and the wanted paths unplaced.
pub(crate) fn unpassed(
    alloc: Global,
    graph: &Plain,
    starts: &[u32],
    ends: &[u32],
    count: u32,
) -> Result<Matching, AllocError>
    requires edges { All (λ edge. (edge.0 < graph.now.nodes) × (edge.1 < graph.now.nodes))
        graph.now.edges }
    requires starts { All (λ start. start < graph.now.nodes) starts.now }
    requires ends { All (λ end. end < graph.now.nodes) ends.now }
    requires few { 2 * graph.now.nodes < 2 ^ 32 }
    requires count { count ≤ graph.now.nodes }
    ensures { IfOk result (λ placing. IsReduced graph.now.nodes graph.now.edges starts.now ends.now
        count placing.graph) }
{
    let rows = rows(alloc, graph.nodes, count)?;
    let pairs = pairs(alloc, graph, starts, ends)?;
    let mut placing = Matching::new(alloc, rows, graph.nodes + 1, pairs, 2 * graph.nodes)?;
    for node in 0..graph.nodes {
        placing.put(node, node);
    }
    Ok(placing)
}

/// A row of its own for each node, and one for all wanted paths.
fn rows(alloc: Global, nodes: u32, count: u32) -> Result<Vec<u32>, AllocError>
    requires { nodes + count < 2 ^ 32 }
    ensures { IfOk result (λ rows. rows.items ≡ rows_of nodes count) }
{
    (0..nodes + count)
        .map(|left| left.min(nodes))
        .collect(alloc)
}

/// What may be placed where: the places that each row has.
fn pairs(
    alloc: Global,
    graph: &Plain,
    starts: &[u32],
    ends: &[u32],
) -> Result<Vec<(u32, u32)>, AllocError>
    requires ends { All (λ end. end < graph.now.nodes) ends.now }
    requires few { 2 * graph.now.nodes < 2 ^ 32 }
    ensures { IfOk result (λ pairs. pairs.items ≡ pairs_of graph.now.nodes graph.now.edges
        starts.now ends.now) }
{
    let mut pairs = selves(alloc, graph.nodes)?;
    pairs.extend_from_slice(graph.edges.as_slice())?;
    push_ends(&mut pairs, graph.nodes, ends)?;
    push_starts(&mut pairs, graph.nodes, starts)?;
    Ok(pairs)
}

/// Each node may be placed on itself.
fn selves(alloc: Global, nodes: u32) -> Result<Vec<(u32, u32)>, AllocError>
    ensures { IfOk result (λ pairs. pairs.items ≡ map (λ node. (node, node))
        (range_with_len 0 nodes)) }
{
    (0..nodes).map(|node| (node, node)).collect(alloc)
}

/// Ends may be placed on their way out.
fn push_ends(pairs: &mut Vec<(u32, u32)>, nodes: u32, ends: &[u32]) -> Result<(), AllocError>
    requires ends { All (λ end. end < nodes) ends.now }
    requires few { 2 * nodes < 2 ^ 32 }
    ensures { OnOk result (pairs.new.items ≡ pairs.old.items ++ map (λ end. (end, nodes + end))
        ends.now) }
{
    for end in ends {
        pairs.push((*end, nodes + *end))?;
    }
    Ok(())
}

/// Wanted paths may be placed on starts.
fn push_starts(pairs: &mut Vec<(u32, u32)>, nodes: u32, starts: &[u32]) -> Result<(), AllocError>
    ensures { OnOk result (pairs.new.items ≡ pairs.old.items ++ map (λ start. (nodes, start))
        starts.now) }
{
    for start in starts {
        pairs.push((nodes, *start))?;
    }
    Ok(())
}
