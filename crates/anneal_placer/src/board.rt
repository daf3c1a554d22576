ghost use Rattle.std.specs.Prelude.{◌≡◌, ◌<◌, ◌+◌, ◌^◌, ◌↔◌, ℕ, Option, Some, None, IfOk, IsTrue, length, slice_index, slice_index_or, slice_set};
ghost use Rattle.std.specs.List.{swap};
ghost use Rattle.matching.specs.Bipartite.{AreApart};
ghost use Rattle.anneal_placer.specs.Board.{AreOccupants, HaveSamePairs, IsBoard};
ghost use Rattle.anneal_placer.specs.Task.{ArePlaces, FitsAt};

use crate::AnnealTask;
use crate::pairing::Pairing;
use std::alloc::{AllocError, Global};

/// Where the blocks stand.
#[derive(Drop)]
pub(crate) struct Board {
    /// The site of each block.
    pub(crate) places: Vec<u32>,
    /// The block on each site.
    pub(crate) occupants: Vec<Option<u32>>,
}

impl Board {
    pub(crate) fn new(alloc: Global, task: &AnnealTask, places: &[u32]) -> Result<Board, AllocError>
        requires placed { ArePlaces task.now places.now }
        requires few { length task.now.blocks.items + 1 < 2 ^ 32 }
        ensures places { IfOk result (λ board. board.places.items ≡ places.now) }
        ensures board { IfOk result (λ board. IsBoard task.now board.places.items
            board.occupants.items) }
    {
        let mut occupants = vec![in alloc; None; task.sites.len()]?;
        seat(places, &mut occupants);
        let places = Vec::from_slice(alloc, places)?;
        Ok(Board { places, occupants })
    }

    /// Moves a block to a free site.
    pub(crate) fn move_to(&mut self, block: u32, site: u32)
        requires occupants { AreOccupants self.old.places.items self.old.occupants.items }
        requires block { block < length self.old.places.items }
        requires site { site < length self.old.occupants.items }
        requires free { slice_index_or self.old.occupants.items site None ≡ None }
        ensures places { self.new.places.items ≡ slice_set self.old.places.items block site }
        ensures occupants { AreOccupants self.new.places.items self.new.occupants.items }
        ensures sites { length self.new.occupants.items ≡ length self.old.occupants.items }
    {
        let home = self.places[block as usize];
        self.occupants[home as usize] = None;
        self.occupants[site as usize] = Some(block);
        self.places[block as usize] = site;
    }

    /// Exchanges two blocks.
    pub(crate) fn exchange(&mut self, a: u32, b: u32)
        requires occupants { AreOccupants self.old.places.items self.old.occupants.items }
        requires a { a < length self.old.places.items }
        requires b { b < length self.old.places.items }
        ensures places { self.new.places.items ≡ swap self.old.places.items a b }
        ensures occupants { AreOccupants self.new.places.items self.new.occupants.items }
        ensures sites { length self.new.occupants.items ≡ length self.old.occupants.items }
    {
        let here = self.places[a as usize];
        let there = self.places[b as usize];
        self.occupants[there as usize] = Some(a);
        self.occupants[here as usize] = Some(b);
        self.places.swap(a as usize, b as usize);
    }
}

/// Puts each block on its site.
fn seat(places: &[u32], occupants: &mut [Option<u32>])
    requires few { length places.now + 1 < 2 ^ 32 }
    requires within { (block : ℕ) → block < length places.now → slice_index places.now block
        < length occupants.old }
    requires apart { AreApart places.now }
    requires empty { (site : ℕ) → slice_index_or occupants.old site None ≡ None }
    ensures { AreOccupants places.now occupants.new }
{
    for (block, site) in places.iter().enumerate() {
        occupants[*site as usize] = Some(block as u32);
    }
}

/// Whether the kind of a block goes with the kind of a site.
pub(crate) fn fits(task: &AnnealTask, pairing: &Pairing, block: u32, site: u32) -> bool
    requires pairing { HaveSamePairs task.now.fits.items pairing.now.pairs.keys }
    requires block { block < length task.now.blocks.items }
    requires site { site < length task.now.sites.items }
    ensures { IsTrue result ↔ FitsAt task.now block site }
{
    let pair = (task.blocks[block as usize], task.sites[site as usize].kind);
    pairing.pairs.contains(&pair)
}
