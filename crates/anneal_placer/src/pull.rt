ghost use Rattle.std.specs.Prelude.{◌≡◌, ◌<◌, ◌↔◌, ◌+◌, ◌-◌, ◌^◌, IfOk, IsTrue, length, map, slice_index};
ghost use Rattle.std.specs.List.{All, sum_by};
ghost use Rattle.std.specs.Vec.{vec_items};
ghost use Rattle.anneal_placer.specs.Cost.{site_at};
ghost use Rattle.anneal_placer.specs.Rects.{away, column_away, row_away};
ghost use Rattle.anneal_placer.specs.Search.{AreBlockNets, ArePulls, IsPull};
ghost use Rattle.anneal_placer.specs.Task.{NameBlocks, nets_of};

use crate::indexed::BlockNets;
use crate::rect::{Rect, rect_without};
use crate::{AnnealTask, SiteAt};
use std::alloc::{AllocError, Global};

/// What draws a block: the rectangles of the other blocks of its nets, one for each net that has
/// others, and how far it is from them in sum.
#[derive(Drop)]
pub(crate) struct Pull {
    rects: Vec<Rect>,
    away: u128,
}

impl Pull {
    pub(crate) fn of(
        alloc: Global,
        task: &AnnealTask,
        nets: &BlockNets,
        places: &[u32],
        block: u32,
    ) -> Result<Pull, AllocError>
        requires nets { AreBlockNets (nets_of task.now) (map vec_items nets.now.of.items)
            (length task.now.blocks.items) }
        requires named { NameBlocks (nets_of task.now) (length task.now.blocks.items) }
        requires blocks { length places.now ≡ length task.now.blocks.items }
        requires sites { All (λ site. site < length task.now.sites.items) places.now }
        requires block { block < length places.now }
        ensures { IfOk result (λ pull. IsPull task.now.sites.items places.now (nets_of task.now)
            block pull.rects.items pull.away) }
    {
        let mut rects = Vec::new(alloc);
        for net in &nets.of[block as usize] {
            let net = &task.nets[*net as usize];
            if let Some(rect) = rect_without(&task.sites, places, net, block) {
                rects.push(rect)?;
            }
        }
        let home = places[block as usize];
        let away = distance(&rects, task.sites[home as usize]);
        Ok(Pull { rects, away })
    }

    /// How far a column is from the rectangles in sum.
    pub(crate) fn column_away(&self, x: u32) -> u128
        ensures { result ≡ sum_by (column_away x) self.now.rects.items }
    {
        let mut sum = 0;
        for rect in &self.rects {
            sum += rect.columns.away(x) as u128;
        }
        sum
    }

    /// What is left of the block's own distance behind that of a row: sites of the row are nearer
    /// where their column is nearer than this.
    pub(crate) fn left(&self, y: u32) -> u128
        ensures { result ≡ self.now.away - sum_by (row_away y) self.now.rects.items }
    {
        let mut left = self.away;
        for rect in &self.rects {
            left = left.saturating_sub(rect.rows.away(y) as u128);
        }
        left
    }

    /// Whether the block would be farther from the others at that site than where it stands by
    /// less than `gain`.
    pub(crate) fn reaches(&self, site: SiteAt, gain: u128) -> bool
        requires { 0 < gain }
        ensures { IsTrue result
            ↔ sum_by (away site) self.now.rects.items < self.now.away + gain }
    {
        distance(&self.rects, site).saturating_sub(self.away) < gain
    }
}

/// What draws each block.
pub(crate) fn pulls_of(
    alloc: Global,
    task: &AnnealTask,
    nets: &BlockNets,
    places: &[u32],
) -> Result<Vec<Pull>, AllocError>
    requires nets { AreBlockNets (nets_of task.now) (map vec_items nets.now.of.items)
        (length task.now.blocks.items) }
    requires named { NameBlocks (nets_of task.now) (length task.now.blocks.items) }
    requires few { length task.now.blocks.items + 1 < 2 ^ 32 }
    requires blocks { length places.now ≡ length task.now.blocks.items }
    requires sites { All (λ site. site < length task.now.sites.items) places.now }
    ensures { IfOk result (λ pulls. ArePulls task.now places.now pulls.items) }
{
    let mut pulls = Vec::with_capacity(alloc, places.len())?;
    for block in 0..places.len() as u32 {
        pulls.push(Pull::of(alloc, task, nets, places, block)?)?;
    }
    Ok(pulls)
}

/// How far a site is from the rectangles in sum.
fn distance(rects: &[Rect], site: SiteAt) -> u128
    ensures { result ≡ sum_by (away site) rects.now }
{
    let mut sum = 0;
    for rect in rects {
        sum += rect.away(site) as u128;
    }
    sum
}
