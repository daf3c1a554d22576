ghost use Rattle.std.specs.Prelude.{◌<◌, ◌^◌, ℕ, IfOk, OnOk, length, vec_len};
ghost use Rattle.vtr_base.specs.Lists.{Has};
ghost use Rattle.least_cycle.specs.Walks.{AreDistances, AreNodes, JoinsBack};
ghost use Rattle.least_cycle.specs.Spreads.{AreSpread};

use flat_tables::FlatTable;
use std::alloc::{AllocError, Global};

/// How many edges lead at least from each node to that one, where any do. The table lists, for each
/// node, those from which an edge leads to it.
pub(crate) fn distances(
    alloc: Global,
    prevs: &FlatTable<u32>,
    to: u32,
) -> Result<Vec<Option<u32>>, AllocError>
    requires nodes { AreNodes prevs.now }
    requires to { to < length prevs.now }
    requires few { length prevs.now < 2 ^ 32 }
    ensures { IfOk result (λ distances. AreDistances (JoinsBack prevs.now) (length prevs.now) to
        distances.items) }
{
    let mut distances: Vec<Option<u32>> = vec![in alloc; None; prevs.groups()]?;
    distances[to as usize] = Some(0);
    let mut queue = vec![in alloc; (to, 0u32)]?;
    let mut at = 0;
    'scan: while at < queue.len() {
        let (node, distance) = queue[at];
        spread(prevs.group(node), distance + 1, &mut distances, &mut queue)?;
        at += 1;
    }
    Ok(distances)
}

/// Gives a distance to the nodes that have none yet, and puts them at the end of the queue.
fn spread(
    nodes: &[u32],
    distance: u32,
    distances: &mut Vec<Option<u32>>,
    queue: &mut Vec<(u32, u32)>,
) -> Result<(), AllocError>
    requires { (node : ℕ) → Has nodes.now node → node < vec_len distances.old }
    ensures { OnOk result (AreSpread nodes.now distance distances.old.items queue.old.items
        distances.new.items queue.new.items) }
{
    for node in nodes {
        if distances[*node as usize].is_none() {
            distances[*node as usize] = Some(distance);
            queue.push((*node, distance))?;
        }
    }
    Ok(())
}
