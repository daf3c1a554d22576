ghost use Rattle.std.specs.Prelude.{◌≡◌, ◌<◌, ◌+◌, None, Some, length, map, IfOk, OnOk};
ghost use Rattle.rr_grid.specs.Firsts.{first_at, AreFirsts, AddsFirst};

use elem_text::Elem;
use indexmap::IndexMap;
use rr_items::{GridPlace, grid_place, one_item};
use std::alloc::{AllocError, Global};

/// Where a place stands.
#[derive(Clone, Copy, Debug, PartialEq, Eq, Hash)]
pub(crate) struct Spot {
    pub(crate) x: u32,
    pub(crate) y: u32,
}

/// A place, and the index of the item that says it.
#[derive(Clone, Copy, Debug, PartialEq, Eq)]
pub(crate) struct FirstPlace {
    pub(crate) index: usize,
    pub(crate) place: GridPlace,
}

/// For each x and y the first place that items say there.
#[derive(Drop)]
pub(crate) struct Firsts {
    pub(crate) by_spot: IndexMap<Spot, FirstPlace>,
}

impl Firsts {
    /// No places. It takes no memory.
    fn new(alloc: Global) -> Firsts
        ensures { (x y : _) → first_at result x y ≡ None }
    {
        Firsts {
            by_spot: IndexMap::new(alloc),
        }
    }

    /// Keeps a place, unless one is kept for its x and y.
    fn add(&mut self, index: usize, place: GridPlace) -> Result<(), AllocError>
        ensures { OnOk result (AddsFirst self.old index place self.new) }
    {
        let spot = Spot {
            x: place.x,
            y: place.y,
        };
        if self.by_spot.contains_key(&spot) {
            return Ok(());
        }
        self.by_spot.insert(spot, FirstPlace { index, place })?;
        Ok(())
    }

    /// What is kept for this x and y.
    pub(crate) fn at(&self, x: u32, y: u32) -> Option<FirstPlace>
        ensures { result ≡ first_at self.now x y }
    {
        self.by_spot.get(&Spot { x, y }).copied()
    }
}

/// The first places of all items, at each x and y. Items that say no place are passed over.
pub(crate) fn first_places(alloc: Global, elems: &[&Elem]) -> Result<Firsts, AllocError>
    ensures { IfOk result (AreFirsts (map (λ e. e.now) elems.now) (length elems.now)) }
{
    one_item();
    let mut firsts = Firsts::new(alloc);
    for (index, elem) in elems.iter().enumerate() {
        match grid_place(elem) {
            Ok(place) => firsts.add(index, place)?,
            Err(_) => {}
        }
    }
    Ok(firsts)
}
