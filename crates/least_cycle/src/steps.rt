ghost use Rattle.std.specs.Prelude.{◌<◌, ℕ, IfOk, length};
ghost use Rattle.vtr_base.specs.Lists.{Has};
ghost use Rattle.least_cycle.specs.Walks.{AreDistances, AreNodes, Joins, IsAt, IsDistanceOf, IsLeastIfAny, IsLeastWay, IsListedAt};

use crate::lower::lower;
use flat_tables::FlatTable;
use sqlite_items::Items;
use std::alloc::{AllocError, Global};

/// The nodes from the first one on along the shortest way back to it, by the least nodes that are
/// on such a way.
pub(crate) fn least_way(
    alloc: Global,
    nexts: &FlatTable<u32>,
    first: u32,
    distances: &[Option<u32>],
) -> Result<Items<u32>, AllocError>
    requires nodes { AreNodes nexts.now }
    requires first { first < length nexts.now }
    requires distances { AreDistances (Joins nexts.now) (length nexts.now) first distances.now }
    requires on_cycle { (next d : ℕ) × Joins nexts.now first next × IsAt distances.now next d }
    ensures { IfOk result (IsLeastWay nexts.now distances.now first) }
{
    let Some(nearest) = nearest(nexts.group(first), distances) else {
        unreachable!();
    };
    let mut steps = vec![in alloc; first]?;
    let mut node = first;
    let mut left = nearest;
    'walk: while left > 0 {
        let Some(next) = least_at(nexts.group(node), distances, left) else {
            unreachable!();
        };
        steps.push(next)?;
        node = next;
        left -= 1;
    }
    Ok(Items::from_vec(steps))
}

/// The least distance of the nodes, where one has any.
fn nearest(nodes: &[u32], distances: &[Option<u32>]) -> Option<u32>
    requires { (node : ℕ) → Has nodes.now node → node < length distances.now }
    ensures { IsLeastIfAny (IsDistanceOf nodes.now distances.now) result }
{
    let mut nearest: Option<u32> = None;
    for node in nodes {
        if let Some(distance) = distances[*node as usize] {
            nearest = Some(lower(nearest, distance));
        }
    }
    nearest
}

/// The least of the nodes that have that distance.
fn least_at(nodes: &[u32], distances: &[Option<u32>], distance: u32) -> Option<u32>
    requires { (node : ℕ) → Has nodes.now node → node < length distances.now }
    ensures { IsLeastIfAny (IsListedAt nodes.now distances.now distance) result }
{
    let mut least: Option<u32> = None;
    for node in nodes {
        if distances[*node as usize] == Some(distance) {
            least = Some(lower(least, *node));
        }
    }
    least
}
