ghost use Rattle.std.specs.Prelude.{◌≡◌, ◌≤◌, ◌^◌, None, length, IfOk, OnOk};
ghost use Rattle.rr_locs.specs.Firsts.{first_at, AddsFirst, AreStarts};

use crate::roots::LocAt;
use indexmap::IndexMap;
use std::alloc::{AllocError, Global};

/// Where a location stands, whatever its sub.
#[derive(Clone, Copy, Debug, PartialEq, Eq, Hash)]
pub(crate) struct Spot {
    pub(crate) x: u32,
    pub(crate) y: u32,
}

/// For each x and y at which locations stand the number of the first.
#[derive(Drop)]
pub(crate) struct Firsts {
    pub(crate) by_spot: IndexMap<Spot, u32>,
}

impl Firsts {
    /// No numbers. It takes no memory.
    fn new(alloc: Global) -> Firsts
        ensures { (x y : _) → first_at result x y ≡ None }
    {
        Firsts {
            by_spot: IndexMap::new(alloc),
        }
    }

    /// Keeps a number for this x and y, in the place of an earlier one.
    fn add(&mut self, x: u32, y: u32, number: u32) -> Result<(), AllocError>
        ensures { OnOk result (AddsFirst self.old x y number self.new) }
    {
        self.by_spot.insert(Spot { x, y }, number)?;
        Ok(())
    }

    /// What is kept for this x and y.
    pub(crate) fn at(&self, x: u32, y: u32) -> Option<u32>
        ensures { result ≡ first_at self.now x y }
    {
        self.by_spot.get(&Spot { x, y }).copied()
    }
}

/// The number of each location of sub 0, by its x and y.
pub(crate) fn starts(alloc: Global, locs: &[LocAt]) -> Result<Firsts, AllocError>
    requires { length locs.now ≤ 2 ^ 20 }
    ensures { IfOk result (AreStarts locs.now (length locs.now)) }
{
    let mut firsts = Firsts::new(alloc);
    for (number, loc) in locs.iter().enumerate() {
        if loc.sub == 0 {
            firsts.add(loc.x, loc.y, number as u32)?;
        }
    }
    Ok(firsts)
}
