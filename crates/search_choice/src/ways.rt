ghost use Rattle.std.specs.Prelude.{◌≡◌, ◌<◌, ℕ, [], IfOk, IfSome, IfNone, length};
ghost use Rattle.sparse_set.specs.Sets.{held_on};
ghost use Rattle.task_types.specs.declared.task.Need.{Need as NeedSaid};
ghost use Rattle.task_types.specs.Open.{IsActiveNeed};
ghost use Rattle.task_types.specs.Tidy.{AreModesDecided};
ghost use Rattle.task_reach.specs.Valid.{IsTaskOf, EntersAtRoot};
ghost use Rattle.search_rules.specs.Closing.{HasWay, HaveAllWays};
ghost use Rattle.search_rules.specs.Left.{IsNextVar, IsAllDecided, AreLeavesDecided, HasLeafHomes};
ghost use Rattle.search_rules.specs.Settled.{IsSettled};

use crate::edges::next_edge;
use crate::vars::is_open_var;
use net_types::Netlist;
use pb_expand::{PbGraph, PinIx};
use search_ways::reach;
use sparse_set::SparseSet;
use std::alloc::{AllocError, Global};
use task_reach::is_active;
use task_trail::Trail;
use task_types::{Need, Task, Var};

/// An entry or an edge that lies on a way of an active need and is still to be decided, once modes
/// and leaves are decided. Nothing, where each active need is settled.
pub(crate) fn next_on_ways(
    alloc: Global,
    net: &Netlist,
    graph: &PbGraph,
    task: &Task,
    trail: &Trail,
    reached: &mut SparseSet,
) -> Result<Option<Var>, AllocError>
    requires task { IsTaskOf graph.now task.now }
    requires homes { HasLeafHomes graph.now task.now }
    requires atoms { trail.now.atoms ≡ length task.now.atoms }
    requires instances { trail.now.instances ≡ length graph.now.instances }
    requires pins { trail.now.pins ≡ length graph.now.pins }
    requires root { EntersAtRoot graph.now trail.now.made }
    requires modes { AreModesDecided graph.now trail.now.made }
    requires leaves { AreLeavesDecided graph.now trail.now.made }
    requires ways { HaveAllWays graph.now net.now.atoms task.now trail.now.made }
    requires reached { reached.old ≡ held_on [] (length graph.now.pins) }
    ensures some { IfOk result (λ var. IfSome var (IsNextVar graph.now net.now.atoms task.now
        trail.now.made)) }
    ensures none { IfOk result (λ var. IfNone var (IsAllDecided graph.now net.now.atoms task.now
        trail.now.made)) }
    ensures reached { reached.new ≡ reached.old }
{
    let mut from = Vec::new(alloc);
    for number in 0..task.needs.len() {
        let var = next_at(net, graph, task, trail, number, reached, &mut from)?;
        if var.is_some() {
            return Ok(var);
        }
    }
    Ok(None)
}

/// The same of the need at one place of the task.
fn next_at(
    net: &Netlist,
    graph: &PbGraph,
    task: &Task,
    trail: &Trail,
    number: usize,
    reached: &mut SparseSet,
    from: &mut Vec<Option<u32>>,
) -> Result<Option<Var>, AllocError>
    requires task { IsTaskOf graph.now task.now }
    requires homes { HasLeafHomes graph.now task.now }
    requires atoms { trail.now.atoms ≡ length task.now.atoms }
    requires instances { trail.now.instances ≡ length graph.now.instances }
    requires pins { trail.now.pins ≡ length graph.now.pins }
    requires root { EntersAtRoot graph.now trail.now.made }
    requires number { number < length task.now.needs }
    requires modes { AreModesDecided graph.now trail.now.made }
    requires leaves { AreLeavesDecided graph.now trail.now.made }
    requires ways { HaveAllWays graph.now net.now.atoms task.now trail.now.made }
    requires reached { reached.old ≡ held_on [] (length graph.now.pins) }
    ensures some { IfOk result (λ var. IfSome var (IsNextVar graph.now net.now.atoms task.now
        trail.now.made)) }
    ensures settled { IfOk result (λ var. IfNone var ((need : NeedSaid) → IsActiveNeed task.now
        trail.now.made number need → IsSettled graph.now net.now.atoms task.now trail.now.made
        need)) }
    ensures reached { reached.new ≡ reached.old }
{
    let need = task.needs.as_slice()[number];
    if !is_active(graph, task, trail, need) {
        return Ok(None);
    }
    from.clear();
    let var = next_for(net, graph, task, trail, need, reached, from);
    reached.clear();
    var
}

/// The same of an active need: it searches a way, and goes back over it.
fn next_for(
    net: &Netlist,
    graph: &PbGraph,
    task: &Task,
    trail: &Trail,
    need: Need,
    reached: &mut SparseSet,
    from: &mut Vec<Option<u32>>,
) -> Result<Option<Var>, AllocError>
    requires task { IsTaskOf graph.now task.now }
    requires homes { HasLeafHomes graph.now task.now }
    requires atoms { trail.now.atoms ≡ length task.now.atoms }
    requires instances { trail.now.instances ≡ length graph.now.instances }
    requires pins { trail.now.pins ≡ length graph.now.pins }
    requires active { (number : ℕ) × IsActiveNeed task.now trail.now.made number need }
    requires modes { AreModesDecided graph.now trail.now.made }
    requires leaves { AreLeavesDecided graph.now trail.now.made }
    requires way { HasWay graph.now net.now.atoms task.now trail.now.made need }
    requires reached { reached.old ≡ held_on [] (length graph.now.pins) }
    requires from { from.old.items ≡ [] }
    ensures some { IfOk result (λ var. IfSome var (IsNextVar graph.now net.now.atoms task.now
        trail.now.made)) }
    ensures settled { IfOk result (λ var. IfNone var (IsSettled graph.now net.now.atoms task.now
        trail.now.made need)) }
    ensures room { reached.new.room ≡ reached.old.room }
{
    graph.law();
    let Some(place) = reach(net, graph, task, trail, need, reached, from)? else {
        return Ok(None);
    };
    reached.law();
    let pins = reached.as_slice();
    let entry = Var::Entry(PinIx(pins[place as usize]));
    if is_open_var(graph, task, trail, entry) {
        return Ok(Some(entry));
    }
    let mut at = place as usize;
    while let Some(before) = from[at] {
        at = before as usize;
        let var = next_edge(graph, task, trail, PinIx(pins[at]));
        if var.is_some() {
            return Ok(var);
        }
    }
    Ok(None)
}
