ghost use Rattle.std.specs.Prelude.{◌≡◌, ◌<◌, ◌^◌, ◌<ℤ◌, ◌≤ℤ◌, ℕ, None, IsTrue, IsFalse, IfOk, OnOk, length};
ghost use Rattle.loc_prefixes.specs.Holders.{held_at, AreHolders, AddsHolder, TakesOver, Yields};

use arch_types::Single;
use indexmap::IndexMap;
use std::alloc::{AllocError, Global};

/// A place of the grid.
#[derive(Clone, Copy, Debug, PartialEq, Eq, Hash)]
pub(crate) struct Spot {
    pub(crate) x: u32,
    pub(crate) y: u32,
}

/// For each place of the grid at which a `single` stands the one that holds, by its place in the
/// layout.
#[derive(Drop)]
pub(crate) struct Holders {
    pub(crate) by_spot: IndexMap<Spot, u32>,
}

impl Holders {
    /// None. It takes no memory.
    fn new(alloc: Global) -> Holders
        ensures { (x y : ℕ) → held_at result x y ≡ None }
    {
        Holders {
            by_spot: IndexMap::new(alloc),
        }
    }

    /// Keeps a place for this x and y, instead of an earlier one.
    fn add(&mut self, x: u32, y: u32, place: u32) -> Result<(), AllocError>
        ensures { OnOk result (AddsHolder self.old x y place self.new) }
    {
        self.by_spot.insert(Spot { x, y }, place)?;
        Ok(())
    }

    /// What is kept for this x and y.
    pub(crate) fn at(&self, x: u32, y: u32) -> Option<u32>
        ensures { result ≡ held_at self.now x y }
    {
        self.by_spot.get(&Spot { x, y }).copied()
    }
}

/// The singles that hold. It takes time for each.
pub(crate) fn holders_of(alloc: Global, singles: &[Single]) -> Result<Holders, AllocError>
    requires { length singles.now < 2 ^ 32 }
    ensures { IfOk result (λ holders. AreHolders singles.now holders) }
{
    let mut holders = Holders::new(alloc);
    for (place, single) in singles.iter().enumerate() {
        if takes_over(&holders, singles, single) {
            holders.add(single.x, single.y, place as u32)?;
        }
    }
    Ok(holders)
}

/// Whether a `single` holds in the place of the one that was kept for its place.
fn takes_over(holders: &Holders, singles: &[Single], single: &Single) -> bool
    ensures over { IsTrue result → TakesOver singles.now (held_at holders.now single.now.x
        single.now.y) single.now }
    ensures yields { IsFalse result → Yields singles.now (held_at holders.now single.now.x
        single.now.y) single.now }
{
    let Some(place) = holders.at(single.x, single.y) else {
        return true;
    };
    match singles.get(place as usize) {
        Some(other) => is_below(other, single),
        None => true,
    }
}

/// Whether the first has less priority.
fn is_below(one: &Single, other: &Single) -> bool
    ensures below { IsTrue result → one.now.priority <ℤ other.now.priority }
    ensures above { IsFalse result → other.now.priority ≤ℤ one.now.priority }
{
    one.priority < other.priority
}
