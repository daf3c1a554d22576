ghost use Rattle.std.specs.Prelude.{◌≡◌, ◌<◌, ◌≤◌, ◌+◌, ◌^◌, IfOk, length};
ghost use Rattle.matching.specs.Bipartite.{AreApart};
ghost use Rattle.crowd_cuts.specs.Reduction.{AreTrails, IsWholeTrail};

use sqlite_items::Items;
use std::alloc::{AllocError, Global};

/// The nodes that each of the wanted paths goes through.
pub(crate) fn trails_of(
    alloc: Global,
    nodes: u32,
    count: u32,
    places: &[u32],
) -> Result<Items<Items<u32>>, AllocError>
    requires few { nodes + count < 2 ^ 32 }
    requires all { length places.now ≡ nodes + count }
    requires apart { AreApart places.now }
    ensures { IfOk result (AreTrails nodes places.now count) }
{
    let mut trails = Items::new(alloc);
    for number in 0..count {
        trails.push(trail_from(alloc, nodes, places, nodes + number)?)?;
    }
    Ok(trails)
}

/// The nodes on which what is on the left, and then each of the nodes, is placed.
fn trail_from(
    alloc: Global,
    nodes: u32,
    places: &[u32],
    left: u32,
) -> Result<Items<u32>, AllocError>
    requires wanted { nodes ≤ left }
    requires within { left < length places.now }
    requires apart { AreApart places.now }
    ensures { IfOk result (IsWholeTrail nodes places.now left) }
{
    let mut trail = Vec::new(alloc);
    let mut next = places[left as usize];
    while next < nodes {
        trail.push(next)?;
        next = places[next as usize];
    }
    Ok(Items::from_vec(trail))
}
