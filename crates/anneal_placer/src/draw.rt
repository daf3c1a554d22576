ghost use Rattle.std.specs.Prelude.{◌≡◌, ◌<◌, ◌-◌, IfOk, length, map};
ghost use Rattle.std.specs.List.{All, sum_by};
ghost use Rattle.std.specs.Vec.{vec_items};
ghost use Rattle.anneal_placer.specs.Rects.{row_away};
ghost use Rattle.anneal_placer.specs.Search.{AreBlockNets, IsDraw};
ghost use Rattle.anneal_placer.specs.Task.{NameBlocks, nets_of};

use crate::AnnealTask;
use crate::indexed::BlockNets;
use crate::pull::Pull;
use std::alloc::{AllocError, Global};

/// What draws a block, with how far each column is from it.
#[derive(Drop)]
pub(crate) struct Draw {
    pull: Pull,
    /// How far each column is from the rectangles in sum.
    pub(crate) columns: Vec<u128>,
    /// No column is nearer.
    pub(crate) nearest: u128,
}

impl Draw {
    pub(crate) fn of(
        alloc: Global,
        task: &AnnealTask,
        nets: &BlockNets,
        columns: &[u32],
        places: &[u32],
        block: u32,
    ) -> Result<Draw, AllocError>
        requires nets { AreBlockNets (nets_of task.now) (map vec_items nets.now.of.items)
            (length task.now.blocks.items) }
        requires named { NameBlocks (nets_of task.now) (length task.now.blocks.items) }
        requires blocks { length places.now ≡ length task.now.blocks.items }
        requires sites { All (λ site. site < length task.now.sites.items) places.now }
        requires block { block < length places.now }
        ensures { IfOk result (λ draw. IsDraw task.now places.now columns.now block draw) }
    {
        let pull = Pull::of(alloc, task, nets, places, block)?;
        let mut aways = Vec::with_capacity(alloc, columns.len())?;
        let mut nearest = u128::MAX;
        for column in columns {
            let away = pull.column_away(*column);
            nearest = nearest.min(away);
            aways.push(away)?;
        }
        Ok(Draw {
            pull,
            columns: aways,
            nearest,
        })
    }

    /// Sites of the row are nearer to the others than the block's own where their column is nearer
    /// than this.
    pub(crate) fn left(&self, y: u32) -> u128
        ensures { result
            ≡ self.now.pull.away - sum_by (row_away y) self.now.pull.rects.items }
    {
        self.pull.left(y)
    }
}
