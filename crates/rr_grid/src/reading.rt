ghost use Rattle.std.specs.Prelude.{◌≡◌, ◌⊎◌, codes, length, map, MatchResult};
ghost use Rattle.elem_reading.specs.Kids.{kids_under as under};
ghost use Rattle.rr_grid.specs.Firsts.{AreFirsts};
ghost use Rattle.rr_grid.specs.Gathering.{AreRight};
ghost use Rattle.rr_grid.specs.Refusing.{IsRefused};
ghost use Rattle.rr_grid.specs.Saying.{SaysGrid};

use crate::error::GridError;
use crate::firsts::{Firsts, first_places};
use crate::grid::Grid;
use crate::right::right_place;
use crate::types::BlockTypeIds;
use elem_reading::kids_under;
use elem_text::Elem;
use rr_items::{GridPlace, one_item};
use std::alloc::Global;

/// The grid of a routing graph file (VPR's file formats: `grid_loc` elements in `grid`), whose
/// block types these are. The first item that fails is told; where one fails in several ways,
/// another layer is told before a missing number, that before an unknown block type, and that
/// before a place that is given twice or lacks its root. Roots are looked up among all items.
pub fn read_grid<T: BlockTypeIds>(alloc: Global, root: &Elem, ids: &T) -> Result<Grid, GridError>
    ensures { MatchResult result
        (SaysGrid (T.known ids.now) (under root.now (codes "grid") (codes "grid_loc")))
        (λ e. (e ≡ GridError.OutOfMemory) ⊎ IsRefused (T.known ids.now)
        (under root.now (codes "grid") (codes "grid_loc")) e) }
{
    one_item();
    let elems = kids_under(alloc, root, b"grid", b"grid_loc")?;
    let firsts = first_places(alloc, elems.as_slice())?;
    let places = right_places(alloc, elems.as_slice(), &firsts, ids)?;
    Ok(Grid::of_places(places, firsts))
}

/// The places that the items say, where all are right.
fn right_places<T: BlockTypeIds>(
    alloc: Global,
    elems: &[&Elem],
    firsts: &Firsts,
    ids: &T,
) -> Result<Vec<GridPlace>, GridError>
    requires { AreFirsts (map (λ e. e.now) elems.now) (length elems.now) firsts.now }
    ensures { MatchResult result
        (λ places. AreRight (T.known ids.now) (map (λ e. e.now) elems.now) (length elems.now)
        places.items)
        (λ e. (e ≡ GridError.OutOfMemory)
        ⊎ IsRefused (T.known ids.now) (map (λ e. e.now) elems.now) e) }
{
    let mut places = Vec::new(alloc);
    for index in 0..elems.len() {
        places.push(right_place(elems, index, firsts, ids)?)?;
    }
    Ok(places)
}
