ghost use Rattle.std.specs.Prelude.{◌<◌, ◌≤◌, ◌+◌, ◌^◌, IfOk, length};
ghost use Rattle.anneal_placer.specs.Task.{ArePlaces, NameBlocks, IsSettled, cost, nets_of};

use crate::AnnealTask;
use crate::board::Board;
use crate::cost::total;
use crate::descent::descend;
use crate::indexed::BlockNets;
use crate::pairing::Pairing;
use crate::shake::shake;
use std::alloc::{AllocError, Global};

/// Better places than these: the site of each block. `moves` is how often a block is tried at
/// another site before the descent, which goes on until no exchange and no move helps; it may be 0.
/// The same `seed` gives the same places.
///
/// # Errors
///
/// For want of memory.
pub fn anneal(
    alloc: Global,
    task: &AnnealTask,
    places: &[u32],
    seed: u64,
    moves: u32,
) -> Result<Vec<u32>, AllocError>
    requires placed { ArePlaces task.now places.now }
    requires named { NameBlocks (nets_of task.now) (length task.now.blocks.items) }
    requires few_blocks { length task.now.blocks.items + 1 < 2 ^ 32 }
    requires few_sites { length task.now.sites.items + 1 < 2 ^ 32 }
    requires few_nets { length task.now.nets.items + 1 < 2 ^ 32 }
    ensures placed { IfOk result (λ answer. ArePlaces task.now answer.items) }
    ensures no_dearer { IfOk result (λ answer. cost task.now answer.items ≤ cost task.now
        places.now) }
    ensures settled { IfOk result (λ answer. IsSettled task.now answer.items) }
{
    let nets = BlockNets::new(alloc, task)?;
    let pairing = Pairing::of(alloc, &task.fits)?;
    let mut board = Board::new(alloc, task, places)?;
    shake(alloc, task, &nets, &pairing, &mut board, seed, moves)?;
    if total(task, places) < total(task, board.places.as_slice()) {
        board = Board::new(alloc, task, places)?;
    }
    descend(alloc, task, &nets, &pairing, &mut board)?;
    Ok(board.places)
}
