ghost use Rattle.std.specs.Prelude.{◌≡◌, ◌≤◌, ◌<◌, ◌⊎◌, ◌^◌, Some, length, slice_get, MatchOption, MatchResult};
ghost use Rattle.std.specs.List.{sum_by};
ghost use Rattle.rr_locs.specs.Places.{AreApart, AreLocs, StandsNone, IsFirstAt};

use crate::error::LocsError;
use crate::firsts::{Firsts, starts};
use crate::listing::{all_locs, fit_limit};
use crate::roots::{LocAt, TileRoot};
use std::alloc::Global;
use std::marker::Model;

/// The locations of a grid, numbered from 0 by x, then y, then sub. Contracts see their list. Each
/// call but the first takes constant time and no memory.
#[derive(Drop)]
pub struct Locs {
    locs: Vec<LocAt>,
    firsts: Firsts,
}

impl Model for Locs {
    ghost use Rattle.std.specs.Prelude.{◌≤◌, ◌^◌, List, length};
    ghost use Rattle.rr_locs.specs.declared.roots.LocAt.{LocAt};
    ghost use Rattle.rr_locs.specs.Firsts.{AreFirsts};

    ghost Value = { List LocAt };

    ghost view = { λ l. l.locs.items };

    ghost invariant = { λ l. (length l.locs.items ≤ 2 ^ 20)
        × AreFirsts l.locs.items l.firsts };
}

impl Locs {
    /// The locations of these roots, of which no two stand at one place. It takes n log n time.
    pub fn of_roots(alloc: Global, roots: &[TileRoot]) -> Result<Locs, LocsError>
        requires { AreApart roots.now }
        ensures { MatchResult result
            (λ locs. AreLocs roots.now locs × (length locs ≤ 2 ^ 20)
            × (sum_by (λ root. root.capacity) roots.now ≤ 2 ^ 20))
            (λ e. (e ≡ LocsError.OutOfMemory) ⊎ ((e ≡ LocsError.TooMany)
            × (2 ^ 20 < sum_by (λ root. root.capacity) roots.now))) }
    {
        if !fit_limit(roots) {
            return Err(LocsError::TooMany);
        }
        let mut locs = all_locs(alloc, roots)?;
        locs.sort_unstable();
        let firsts = starts(alloc, locs.as_slice())?;
        Ok(Locs { locs, firsts })
    }

    /// How many locations there are.
    pub fn locs(&self) -> u32
        ensures { result ≡ length self.now }
    {
        self.locs.len() as u32
    }

    /// The location of this number.
    pub fn loc(&self, number: u32) -> LocAt
        requires { number < length self.now }
        ensures { slice_get self.now number ≡ Some result }
    {
        self.locs[number as usize]
    }

    /// The number of the first location at (x, y), where there is one. The others follow it.
    pub fn first_at(&self, x: u32, y: u32) -> Option<u32>
        ensures { MatchOption result (StandsNone self.now x y) (IsFirstAt self.now x y) }
    {
        self.firsts.at(x, y)
    }
}
