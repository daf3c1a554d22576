ghost use Rattle.std.specs.Prelude.{◌≡◌, ◌<◌, ◌+◌, length, map, slice_set};
ghost use Rattle.std.specs.List.{All, swap};
ghost use Rattle.std.specs.Vec.{vec_items};
ghost use Rattle.anneal_placer.specs.Cost.{nets_cost};
ghost use Rattle.anneal_placer.specs.Rects.{with_block};
ghost use Rattle.anneal_placer.specs.Search.{AreBlockNets};
ghost use Rattle.anneal_placer.specs.Task.{NameBlocks, nets_of};

use crate::AnnealTask;
use crate::indexed::BlockNets;

/// What the nets of the blocks that a step moves cost before it and after it. A net of both blocks
/// of an exchange counts twice, which costs the same on both sides.
#[derive(Clone, Copy, Drop)]
pub(crate) struct Trial {
    pub(crate) before: u128,
    pub(crate) after: u128,
}

/// What a move of a block to a site would do. The places stay.
pub(crate) fn move_trial(
    task: &AnnealTask,
    nets: &BlockNets,
    places: &mut [u32],
    block: u32,
    site: u32,
) -> Trial
    requires nets { AreBlockNets (nets_of task.now) (map vec_items nets.now.of.items)
        (length task.now.blocks.items) }
    requires named { NameBlocks (nets_of task.now) (length task.now.blocks.items) }
    requires blocks { length places.old ≡ length task.now.blocks.items }
    requires sites { All (λ site. site < length task.now.sites.items) places.old }
    requires block { block < length places.old }
    requires site { site < length task.now.sites.items }
    ensures kept { places.new ≡ places.old }
    ensures before { result.before ≡ nets_cost task.now.sites.items places.old
        (with_block block (nets_of task.now)) }
    ensures after { result.after ≡ nets_cost task.now.sites.items (slice_set places.old block site)
        (with_block block (nets_of task.now)) }
{
    let before = nets.cost_at(task, places, block);
    let after = cost_with(task, nets, places, block, site);
    Trial { before, after }
}

/// What the nets of a block would cost with the block at that site. The places stay.
pub(crate) fn cost_with(
    task: &AnnealTask,
    nets: &BlockNets,
    places: &mut [u32],
    block: u32,
    site: u32,
) -> u128
    requires nets { AreBlockNets (nets_of task.now) (map vec_items nets.now.of.items)
        (length task.now.blocks.items) }
    requires named { NameBlocks (nets_of task.now) (length task.now.blocks.items) }
    requires blocks { length places.old ≡ length task.now.blocks.items }
    requires sites { All (λ site. site < length task.now.sites.items) places.old }
    requires block { block < length places.old }
    requires site { site < length task.now.sites.items }
    ensures kept { places.new ≡ places.old }
    ensures value { result ≡ nets_cost task.now.sites.items (slice_set places.old block site)
        (with_block block (nets_of task.now)) }
{
    let home = places[block as usize];
    places[block as usize] = site;
    let cost = nets.cost_at(task, places, block);
    places[block as usize] = home;
    cost
}

/// What an exchange of two blocks would do. The places stay.
pub(crate) fn exchange_trial(
    task: &AnnealTask,
    nets: &BlockNets,
    places: &mut [u32],
    a: u32,
    b: u32,
) -> Trial
    requires nets { AreBlockNets (nets_of task.now) (map vec_items nets.now.of.items)
        (length task.now.blocks.items) }
    requires named { NameBlocks (nets_of task.now) (length task.now.blocks.items) }
    requires blocks { length places.old ≡ length task.now.blocks.items }
    requires sites { All (λ site. site < length task.now.sites.items) places.old }
    requires a { a < length places.old }
    requires b { b < length places.old }
    ensures kept { places.new ≡ places.old }
    ensures before { result.before ≡ nets_cost task.now.sites.items places.old
        (with_block a (nets_of task.now)) + nets_cost task.now.sites.items places.old
        (with_block b (nets_of task.now)) }
    ensures after { result.after ≡ nets_cost task.now.sites.items (swap places.old a b)
        (with_block a (nets_of task.now)) + nets_cost task.now.sites.items (swap places.old a b)
        (with_block b (nets_of task.now)) }
{
    let before = nets.cost_at(task, places, a) + nets.cost_at(task, places, b);
    places.swap(a as usize, b as usize);
    let after = nets.cost_at(task, places, a) + nets.cost_at(task, places, b);
    places.swap(a as usize, b as usize);
    Trial { before, after }
}
