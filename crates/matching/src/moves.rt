ghost use Rattle.std.specs.Prelude.{◌≡◌, ◌<◌, ℕ, Option, Some, None, Contains, length, slice_index, slice_index_or, vec_len};
ghost use Rattle.matching.specs.Bipartite.{Graph, IsPartial, AddsLeft, KeepsOwners};
ghost use Rattle.matching.specs.Inside.{IsTrail, IsWayOut};

use crate::rows::Rows;
use crate::search::{Trail, WayOut};

/// Moves the left numbers along the way out, from its end to the trail's first left number: each
/// leaves its right number to the one that reached it.
pub(crate) fn shift(
    rows: &Rows,
    place: &mut [Option<u32>],
    owner: &mut [Option<u32>],
    trail: &Trail,
    out: WayOut,
)
    requires partial { IsPartial (record { rows = rows.now.of.items; pairs = rows.now.pairs.items })
        place.old owner.old }
    requires trail { IsTrail rows.now.of.items rows.now.pairs.items owner.old trail.now.lefts.items
        trail.now.rights.items trail.now.from.items }
    requires begin { slice_index_or place.old (slice_index trail.now.lefts.items 0) None ≡ None }
    requires out { IsWayOut rows.now.of.items rows.now.pairs.items owner.old trail.now.lefts.items
        out.right out.at }
    ensures partial { IsPartial (record { rows = rows.now.of.items; pairs = rows.now.pairs.items })
        place.new owner.new }
    ensures adds { AddsLeft place.old place.new (slice_index trail.now.lefts.items 0) }
    ensures owners { KeepsOwners owner.old owner.new }
{
    let mut right = out.right;
    let mut at = out.at;
    while at > 0 {
        let left = trail.lefts[at];
        let left_behind = trail.rights[at - 1];
        place[left as usize] = Some(right);
        owner[right as usize] = Some(left);
        owner[left_behind as usize] = None;
        right = left_behind;
        at = trail.from[at - 1];
    }
    let left = trail.lefts[0];
    place[left as usize] = Some(right);
    owner[right as usize] = Some(left);
}
