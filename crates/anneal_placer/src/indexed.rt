ghost use Rattle.std.specs.Prelude.{◌≡◌, ◌<◌, ◌+◌, ◌^◌, ◌++◌, ◌∷◌, [], List, ℕ, IfOk, OnOk, length, map};
ghost use Rattle.std.specs.List.{All};
ghost use Rattle.std.specs.Vec.{vec_items};
ghost use Rattle.anneal_placer.specs.Cost.{nets_cost};
ghost use Rattle.anneal_placer.specs.Rects.{with_block};
ghost use Rattle.anneal_placer.specs.Search.{AreBlockNets, AddsNet};
ghost use Rattle.anneal_placer.specs.Task.{NameBlocks, nets_of};

use crate::AnnealTask;
use crate::cost::net_cost;
use std::alloc::{AllocError, Global};

/// The nets in which each block stands, each once and in order.
#[derive(Drop)]
pub(crate) struct BlockNets {
    pub(crate) of: Vec<Vec<u32>>,
}

impl BlockNets {
    pub(crate) fn new(alloc: Global, task: &AnnealTask) -> Result<BlockNets, AllocError>
        requires named { NameBlocks (nets_of task.now) (length task.now.blocks.items) }
        requires few { length task.now.nets.items + 1 < 2 ^ 32 }
        ensures { IfOk result (λ nets. AreBlockNets (nets_of task.now) (map vec_items nets.of.items)
            (length task.now.blocks.items)) }
    {
        let mut of = Vec::with_capacity(alloc, task.blocks.len())?;
        for _ in &task.blocks {
            of.push(Vec::new(alloc))?;
        }
        for (number, net) in task.nets.iter().enumerate() {
            add_net(&mut of, net, number as u32)?;
        }
        Ok(BlockNets { of })
    }

    /// What the nets of the block cost.
    pub(crate) fn cost_at(&self, task: &AnnealTask, places: &[u32], block: u32) -> u128
        requires nets { AreBlockNets (nets_of task.now) (map vec_items self.now.of.items)
            (length task.now.blocks.items) }
        requires named { NameBlocks (nets_of task.now) (length task.now.blocks.items) }
        requires blocks { length places.now ≡ length task.now.blocks.items }
        requires sites { All (λ site. site < length task.now.sites.items) places.now }
        requires block { block < length places.now }
        ensures value { result ≡ nets_cost task.now.sites.items places.now
            (with_block block (nets_of task.now)) }
        ensures small { result < 2 ^ 97 }
    {
        let mut sum = 0;
        for net in &self.of[block as usize] {
            sum += net_cost(&task.sites, places, &task.nets[*net as usize]) as u128;
        }
        sum
    }
}

/// Adds a net to the lists of its blocks.
fn add_net(of: &mut [Vec<u32>], net: &[u32], number: u32) -> Result<(), AllocError>
    requires within { All (λ block. block < length of.old) net.now }
    requires earlier { All (λ list. All (λ other. other < number) list.items) of.old }
    ensures { OnOk result (AddsNet number net.now (map vec_items of.old) (map vec_items of.new)) }
{
    for block in net {
        push_once(&mut of[*block as usize], number)?;
    }
    Ok(())
}

/// Adds a number that is above those of the list, unless it stands at the end already.
fn push_once(list: &mut Vec<u32>, number: u32) -> Result<(), AllocError>
    ensures again { (front : List ℕ) → list.old.items ≡ front ++ number ∷ [] → OnOk result
        (list.new.items ≡ list.old.items) }
    ensures first { All (λ other. other < number) list.old.items → OnOk result
        (list.new.items ≡ list.old.items ++ number ∷ []) }
{
    if let Some(last) = list.last() {
        if *last == number {
            return Ok(());
        }
    }
    list.push(number)?;
    Ok(())
}
