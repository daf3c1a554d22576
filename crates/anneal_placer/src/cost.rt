ghost use Rattle.std.specs.Prelude.{◌≡◌, ◌<◌, ◌*◌, ◌^◌, ℕ, length};
ghost use Rattle.std.specs.List.{All};
ghost use Rattle.anneal_placer.specs.Cost.{net_cost};
ghost use Rattle.anneal_placer.specs.Task.{ArePlaces, NameBlocks, cost, nets_of};

use crate::rect::rect_of;
use crate::{AnnealTask, SiteAt};

/// What the places cost: the sum, over the nets, of the width and the height of the rectangle of
/// the net's blocks.
pub fn cost_of(task: &AnnealTask, places: &[u32]) -> u64
    requires placed { ArePlaces task.now places.now }
    requires named { NameBlocks (nets_of task.now) (length task.now.blocks.items) }
    requires fits { cost task.now places.now < 2 ^ 64 }
    ensures { result ≡ cost task.now places.now }
{
    total(task, places) as u64
}

/// The same, where it may be larger.
pub(crate) fn total(task: &AnnealTask, places: &[u32]) -> u128
    requires placed { ArePlaces task.now places.now }
    requires named { NameBlocks (nets_of task.now) (length task.now.blocks.items) }
    ensures { result ≡ cost task.now places.now }
{
    let mut sum = 0;
    for net in &task.nets {
        sum += net_cost(&task.sites, places, net) as u128;
    }
    sum
}

/// The half perimeter of the rectangle of a net's blocks.
pub(crate) fn net_cost(sites: &[SiteAt], places: &[u32], net: &[u32]) -> u64
    requires sites { All (λ site. site < length sites.now) places.now }
    requires blocks { All (λ block. block < length places.now) net.now }
    ensures value { result ≡ net_cost sites.now places.now net.now }
    ensures small { result < 2 ^ 33 }
{
    match rect_of(sites, places, net) {
        Some(rect) => rect.half_perimeter(),
        None => 0,
    }
}
