ghost use Rattle.std.specs.Prelude.{◌≡◌, ◌<◌, ◌^◌, [], IfOk, length};
ghost use Rattle.std.specs.Bool.{OnTrue};
ghost use Rattle.sparse_set.specs.Sets.{held_on};
ghost use Rattle.task_reach.specs.Valid.{IsTaskOf};
ghost use Rattle.task_trail.specs.Decided.{decided_on};
ghost use Rattle.tree_steps.specs.Owing.{IsPath};
ghost use Rattle.search_rules.specs.Left.{HasLeafHomes};
ghost use Rattle.search_rules.specs.Settled.{IsReady};
ghost use Rattle.first_try.specs.Paths.{IsOnPath};

use crate::decide::decide;
use crate::modes::choose_modes;
use crate::places::place_atoms;
use crate::routes::route_needs;
use net_types::Netlist;
use pb_expand::{PbGraph, PbIx};
use search_choice::next_var;
use search_free::{enters_law, path_law};
use search_homes::find_homeless;
use search_law::ready_law;
use search_ways::find_cut;
use sparse_set::SparseSet;
use std::alloc::{AllocError, Global};
use task_trail::Trail;
use task_types::{Decision, Occupant, Task};

/// Decides what looks best, and whether all atoms have homes and all needs are met then. Where they
/// aren't, that says nothing of the task. Modes come first, then homes of atoms, each the first that
/// leaves hope, then ways of needs, in turn; each leaf that is left is used for nothing.
///
/// It takes as many matchings as there are modes and leaves to try, and a walk back over the graph
/// from each need.
pub fn first_try(
    alloc: Global,
    net: &Netlist,
    graph: &PbGraph,
    task: &Task,
    trail: &mut Trail,
    reached: &mut SparseSet,
) -> Result<bool, AllocError>
    requires task { IsTaskOf graph.now task.now }
    requires homes { HasLeafHomes graph.now task.now }
    requires few_needs { length task.now.needs < 2 ^ 32 }
    requires atoms { trail.old.atoms ≡ length task.now.atoms }
    requires instances { trail.old.instances ≡ length graph.now.instances }
    requires pins { trail.old.pins ≡ length graph.now.pins }
    requires empty { trail.old.made ≡ [] }
    requires reached { reached.old ≡ held_on [] (length graph.now.pins) }
    ensures ready { IfOk result (λ done. OnTrue done (IsReady graph.now net.now.atoms task.now
        trail.new.made)) }
    ensures path { IsPath graph.now task.now trail.new.made }
    ensures sizes { trail.new ≡ decided_on trail.new.made (length graph.now.instances)
        (length graph.now.pins)
        (length task.now.atoms) }
    ensures reached { reached.new ≡ reached.old }
{
    path_law(graph);
    if !choose_modes(alloc, graph, task, trail)? {
        return Ok(false);
    }
    if !place_atoms(alloc, net, graph, task, trail, reached)? {
        return Ok(false);
    }
    route_needs(alloc, net, graph, task, trail, reached)?;
    leave_rest(graph, task, trail);
    is_done(alloc, net, graph, task, trail, reached)
}

/// Decides of each leaf of which nothing is decided that it is used for nothing.
fn leave_rest(graph: &PbGraph, task: &Task, trail: &mut Trail)
    requires task { IsTaskOf graph.now task.now }
    requires on { IsOnPath graph.now task.now trail.old }
    ensures on { IsOnPath graph.now task.now trail.new }
{
    for pb in 0..graph.pbs() {
        decide(
            graph,
            task,
            trail,
            Decision::Occupant(PbIx(pb), Occupant::Nobody),
        );
    }
}

/// Whether all atoms have homes and all needs are met.
fn is_done(
    alloc: Global,
    net: &Netlist,
    graph: &PbGraph,
    task: &Task,
    trail: &Trail,
    reached: &mut SparseSet,
) -> Result<bool, AllocError>
    requires task { IsTaskOf graph.now task.now }
    requires homes { HasLeafHomes graph.now task.now }
    requires few_needs { length task.now.needs < 2 ^ 32 }
    requires on { IsOnPath graph.now task.now trail.now }
    requires reached { reached.old ≡ held_on [] (length graph.now.pins) }
    ensures ready { IfOk result (λ done. OnTrue done (IsReady graph.now net.now.atoms task.now
        trail.now.made)) }
    ensures reached { reached.new ≡ reached.old }
{
    enters_law(graph);
    ready_law(graph);
    if find_homeless(alloc, graph, task, trail)?.is_some() {
        return Ok(false);
    }
    if find_cut(alloc, net, graph, task, trail, reached)?.is_some() {
        return Ok(false);
    }
    Ok(next_var(alloc, net, graph, task, trail, reached)?.is_none())
}
