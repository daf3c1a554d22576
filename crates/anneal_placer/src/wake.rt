ghost use Rattle.std.specs.Prelude.{◌≡◌, ◌<◌, ◌+◌, ◌^◌, IfOk, length, map};
ghost use Rattle.std.specs.List.{All};
ghost use Rattle.std.specs.Vec.{vec_items};
ghost use Rattle.anneal_placer.specs.Search.{AreBlockNets};
ghost use Rattle.anneal_placer.specs.Task.{NameBlocks, nets_of};

use crate::AnnealTask;
use crate::indexed::BlockNets;
use std::alloc::{AllocError, Global};

/// The blocks that stand in a net with one that moved. They are worth trying again.
pub(crate) fn woken(
    alloc: Global,
    task: &AnnealTask,
    nets: &BlockNets,
    before: &[u32],
    after: &[u32],
) -> Result<Vec<bool>, AllocError>
    requires nets { AreBlockNets (nets_of task.now) (map vec_items nets.now.of.items)
        (length task.now.blocks.items) }
    requires named { NameBlocks (nets_of task.now) (length task.now.blocks.items) }
    requires few { length task.now.blocks.items + 1 < 2 ^ 32 }
    requires before { length before.now ≡ length task.now.blocks.items }
    requires after { length after.now ≡ length task.now.blocks.items }
    ensures { IfOk result (λ active. length active.items ≡ length task.now.blocks.items) }
{
    let mut active = vec![in alloc; false; task.blocks.len()]?;
    for block in 0..task.blocks.len() as u32 {
        if before[block as usize] != after[block as usize] {
            wake(task, nets, block, &mut active);
        }
    }
    Ok(active)
}

/// Wakes the blocks of the nets of a block.
fn wake(task: &AnnealTask, nets: &BlockNets, block: u32, active: &mut [bool])
    requires nets { AreBlockNets (nets_of task.now) (map vec_items nets.now.of.items)
        (length task.now.blocks.items) }
    requires named { NameBlocks (nets_of task.now) (length task.now.blocks.items) }
    requires block { block < length task.now.blocks.items }
    requires active { length active.old ≡ length task.now.blocks.items }
    ensures { length active.new ≡ length active.old }
{
    for net in &nets.of[block as usize] {
        let net = &task.nets[*net as usize];
        wake_net(net, active);
    }
}

/// Wakes the blocks of a net.
fn wake_net(net: &[u32], active: &mut [bool])
    requires { All (λ block. block < length active.old) net.now }
    ensures { length active.new ≡ length active.old }
{
    for block in net {
        active[*block as usize] = true;
    }
}
