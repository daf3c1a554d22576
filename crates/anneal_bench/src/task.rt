ghost use Rattle.std.specs.Prelude.{◌≡◌, ◌<◌, ◌≤◌, IfOk, length, map};
ghost use Rattle.std.specs.List.{All};
ghost use Rattle.std.specs.Vec.{vec_items};
ghost use Rattle.anneal_placer.specs.Task.{NameBlocks};

use anneal_placer::{AnnealTask, SiteAt};
use std::alloc::{AllocError, Global};

/// No more blocks, nets or columns are asked for.
pub(crate) const MOST: u32 = 1_000_000;

/// A generator of numbers, the same in each run.
#[derive(Drop)]
pub(crate) struct Numbers {
    pub(crate) state: u32,
}

impl Numbers {
    fn below(&mut self, limit: u32) -> u32
        requires { 0 < limit }
        ensures { result < limit }
    {
        self.state = self.state.wrapping_mul(1664525).wrapping_add(1013904223);
        (self.state >> 8) % limit
    }

    /// Two to six blocks, most of them not far from the first in the list of blocks.
    fn net(&mut self, alloc: Global, blocks: u32) -> Result<Vec<u32>, AllocError>
        requires { 0 < blocks }
        ensures { IfOk result (λ net. All (λ block. block < blocks) net.items) }
    {
        let mut net = Vec::new(alloc);
        let first = self.below(blocks);
        net.push(first)?;
        for _ in 0..1 + self.below(5) {
            let mut away = self.below(40);
            if self.below(4) == 0 {
                away = self.below(blocks);
            }
            let block = first.saturating_add(away) % blocks;
            net.push(block)?;
        }
        Ok(net)
    }
}

/// Sites in rows of `side`, all of one kind.
pub(crate) fn square(alloc: Global, sites: u32, side: u32) -> Result<Vec<SiteAt>, AllocError>
    requires { 0 < side }
    ensures { IfOk result (λ list. length list.items ≡ sites) }
{
    let mut list = Vec::new(alloc);
    for number in 0..sites {
        let x = number % side;
        let y = number / side;
        list.push(SiteAt { kind: 0, x, y })?;
    }
    Ok(list)
}

/// Nets of a few blocks.
pub(crate) fn nets(
    alloc: Global,
    numbers: &mut Numbers,
    blocks: u32,
    count: u32,
) -> Result<Vec<Vec<u32>>, AllocError>
    requires { 0 < blocks }
    ensures named { IfOk result (λ nets. NameBlocks (map vec_items nets.items) blocks) }
    ensures count { IfOk result (λ nets. length nets.items ≤ count) }
{
    let mut nets = Vec::new(alloc);
    'nets: while nets.len() < count as usize {
        nets.push(numbers.net(alloc, blocks)?)?;
    }
    Ok(nets)
}

/// The half perimeters of all nets' rectangles in sum.
pub(crate) fn cost(task: &AnnealTask, places: &[u32]) -> u64 {
    let mut sum: u64 = 0;
    for net in &task.nets {
        let mut low = (u32::MAX, u32::MAX);
        let mut high = (0, 0);
        for block in net {
            let place = places.get(*block as usize).copied().unwrap_or(0);
            if let Some(site) = task.sites.get(place as usize) {
                low = (low.0.min(site.x), low.1.min(site.y));
                high = (high.0.max(site.x), high.1.max(site.y));
            }
        }
        sum = sum.saturating_add(high.0.saturating_sub(low.0) as u64);
        sum = sum.saturating_add(high.1.saturating_sub(low.1) as u64);
    }
    sum
}
