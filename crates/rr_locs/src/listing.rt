ghost use Rattle.std.specs.Prelude.{◌≡◌, ◌≤◌, ◌<◌, ◌+◌, ◌++◌, ◌^◌, IfOk, OnOk, MatchBool};
ghost use Rattle.std.specs.List.{sum_by, flat_map};
ghost use Rattle.rr_locs.specs.Listing.{locs_of};

use crate::roots::{LocAt, TileRoot};
use std::alloc::{AllocError, Global};

/// Whether the capacities sum to 2^20 at most.
pub(crate) fn fit_limit(roots: &[TileRoot]) -> bool
    ensures { MatchBool result (sum_by (λ root. root.capacity) roots.now ≤ 2 ^ 20)
        (2 ^ 20 < sum_by (λ root. root.capacity) roots.now) }
{
    let mut left = 1 << 20;
    for root in roots {
        if left < root.capacity {
            return false;
        }
        left -= root.capacity;
    }
    true
}

/// The locations of each root, root by root.
pub(crate) fn all_locs(alloc: Global, roots: &[TileRoot]) -> Result<Vec<LocAt>, AllocError>
    ensures { IfOk result (λ locs. locs.items ≡ flat_map locs_of roots.now) }
{
    let mut locs = Vec::new(alloc);
    for root in roots {
        add_locs(&mut locs, *root)?;
    }
    Ok(locs)
}

/// Adds the locations of one root.
fn add_locs(locs: &mut Vec<LocAt>, root: TileRoot) -> Result<(), AllocError>
    ensures { OnOk result (locs.new.items ≡ locs.old.items ++ locs_of root) }
{
    for sub in 0..root.capacity {
        locs.push(LocAt {
            x: root.x,
            y: root.y,
            sub,
            tile: root.tile,
        })?;
    }
    Ok(())
}
