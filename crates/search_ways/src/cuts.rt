ghost use Rattle.std.specs.Prelude.{◌≡◌, ◌<◌, ◌^◌, ℕ, [], IfOk, IfSome, IfNone, length, map};
ghost use Rattle.pb_expand.specs.Graph.{pin_ix};
ghost use Rattle.sparse_set.specs.Sets.{held_on};
ghost use Rattle.task_types.specs.declared.task.Need.{Need as NeedSaid};
ghost use Rattle.task_types.specs.Open.{IsActiveNeed};
ghost use Rattle.task_reach.specs.Valid.{IsTaskOf, EntersAtRoot};
ghost use Rattle.search_rules.specs.Closing.{Closes, HasWay, HaveAllWays};

use crate::search::reach;
use net_types::Netlist;
use pb_expand::{PbGraph, PinIx};
use sparse_set::SparseSet;
use sqlite_items::Items;
use std::alloc::{AllocError, Global};
use task_reach::is_active;
use task_trail::Trail;
use task_types::{Need, Task, TreeNode};

/// The leaf that shows of the first active need without a way that there is none: the need, and the
/// pins that a search back from its ends reaches. Nothing, where each active need has a way. It goes
/// over the needs in turn, and leaves the set empty.
pub fn find_cut(
    alloc: Global,
    net: &Netlist,
    graph: &PbGraph,
    task: &Task,
    trail: &Trail,
    reached: &mut SparseSet,
) -> Result<Option<TreeNode>, AllocError>
    requires task { IsTaskOf graph.now task.now }
    requires atoms { trail.now.atoms ≡ length task.now.atoms }
    requires instances { trail.now.instances ≡ length graph.now.instances }
    requires pins { trail.now.pins ≡ length graph.now.pins }
    requires root { EntersAtRoot graph.now trail.now.made }
    requires few_needs { length task.now.needs < 2 ^ 32 }
    requires reached { reached.old ≡ held_on [] (length graph.now.pins) }
    ensures closes { IfOk result (λ node. IfSome node (Closes graph.now net.now.atoms task.now
        trail.now.made)) }
    ensures ways { IfOk result (λ node. IfNone node (HaveAllWays graph.now net.now.atoms task.now
        trail.now.made)) }
    ensures reached { reached.new ≡ reached.old }
{
    let mut from = Vec::new(alloc);
    for number in 0..task.needs.len() {
        let node = cut_at(
            alloc,
            net,
            graph,
            task,
            trail,
            number as u32,
            reached,
            &mut from,
        )?;
        if node.is_some() {
            return Ok(node);
        }
    }
    Ok(None)
}

/// The leaf that shows that the need at a place of the task is active and has no way, where it is so.
fn cut_at(
    alloc: Global,
    net: &Netlist,
    graph: &PbGraph,
    task: &Task,
    trail: &Trail,
    number: u32,
    reached: &mut SparseSet,
    from: &mut Vec<Option<u32>>,
) -> Result<Option<TreeNode>, AllocError>
    requires task { IsTaskOf graph.now task.now }
    requires atoms { trail.now.atoms ≡ length task.now.atoms }
    requires instances { trail.now.instances ≡ length graph.now.instances }
    requires pins { trail.now.pins ≡ length graph.now.pins }
    requires root { EntersAtRoot graph.now trail.now.made }
    requires number { number < length task.now.needs }
    requires reached { reached.old ≡ held_on [] (length graph.now.pins) }
    ensures closes { IfOk result (λ node. IfSome node (Closes graph.now net.now.atoms task.now
        trail.now.made)) }
    ensures way { IfOk result (λ node. IfNone node ((need : NeedSaid) → IsActiveNeed task.now
        trail.now.made number need → HasWay graph.now net.now.atoms task.now trail.now.made need)) }
    ensures reached { reached.new ≡ reached.old }
{
    let need = task.needs.as_slice()[number as usize];
    if !is_active(graph, task, trail, need) {
        return Ok(None);
    }
    from.clear();
    let node = cut_of(alloc, net, graph, task, trail, number, need, reached, from);
    reached.clear();
    node
}

/// The leaf that shows that an active need has no way, where it is so.
fn cut_of(
    alloc: Global,
    net: &Netlist,
    graph: &PbGraph,
    task: &Task,
    trail: &Trail,
    number: u32,
    need: Need,
    reached: &mut SparseSet,
    from: &mut Vec<Option<u32>>,
) -> Result<Option<TreeNode>, AllocError>
    requires task { IsTaskOf graph.now task.now }
    requires atoms { trail.now.atoms ≡ length task.now.atoms }
    requires instances { trail.now.instances ≡ length graph.now.instances }
    requires pins { trail.now.pins ≡ length graph.now.pins }
    requires active { IsActiveNeed task.now trail.now.made number need }
    requires reached { reached.old ≡ held_on [] (length graph.now.pins) }
    requires from { from.old.items ≡ [] }
    ensures closes { IfOk result (λ node. IfSome node (Closes graph.now net.now.atoms task.now
        trail.now.made)) }
    ensures way { IfOk result (λ node. IfNone node (HasWay graph.now net.now.atoms task.now
        trail.now.made need)) }
    ensures room { reached.new.room ≡ reached.old.room }
{
    if reach(net, graph, task, trail, need, reached, from)?.is_some() {
        return Ok(None);
    }
    reached.law();
    let pins = pins_of(alloc, reached.as_slice())?;
    Ok(Some(TreeNode::Cut { need: number, pins }))
}

/// Pins by their numbers.
fn pins_of(alloc: Global, numbers: &[u32]) -> Result<Items<PinIx>, AllocError>
    ensures { IfOk result (λ pins. pins ≡ map pin_ix numbers.now) }
{
    let mut pins = Vec::with_capacity(alloc, numbers.len())?;
    for number in numbers {
        pins.push(PinIx(*number))?;
    }
    Ok(Items::from_vec(pins))
}
