ghost use Rattle.std.specs.Prelude.{◌≡◌, ◌<◌, ◌+◌, ◌↔◌, ℕ, [], Some, IsTrue, length, slice_get};
ghost use Rattle.std.specs.Bool.{OnTrue, OnFalse};
ghost use Rattle.vtr_base.specs.Lists.{Has};
ghost use Rattle.task_types.specs.Open.{MayStart};
ghost use Rattle.sparse_set.specs.Sets.{held_on};
ghost use Rattle.task_reach.specs.Valid.{IsTaskOf, IsNeedOf};
ghost use Rattle.node_crowd.specs.Blocking.{IsBlocked, IsWalk};

use net_types::Netlist;
use pb_expand::{PbGraph, PinIx};
use sparse_set::SparseSet;
use task_reach::{may_start, put_ends, put_steps};
use task_trail::Trail;
use task_types::{Need, Task};

/// Whether each way from an end of a need to a source of its net meets a listed pin.
pub(crate) fn is_blocked(
    net: &Netlist,
    graph: &PbGraph,
    task: &Task,
    trail: &Trail,
    need: Need,
    listed: &SparseSet,
    reached: &mut SparseSet,
) -> bool
    requires task { IsTaskOf graph.now task.now }
    requires need { IsNeedOf graph.now task.now need }
    requires atoms { trail.now.atoms ≡ length task.now.atoms }
    requires instances { trail.now.instances ≡ length graph.now.instances }
    requires pins { trail.now.pins ≡ length graph.now.pins }
    requires listed { listed.now.room ≡ length graph.now.pins }
    requires reached { reached.old ≡ held_on [] (length graph.now.pins) }
    ensures blocked { IsTrue result ↔ IsBlocked graph.now net.now.atoms task.now trail.now.made
        need
        listed.now.items }
    ensures reached { reached.new ≡ reached.old }
{
    put_ends(net, graph, task, trail, need, reached);
    let blocked = misses_starts(net, graph, task, trail, need, listed, reached);
    reached.clear();
    blocked
}

/// Whether no source of a need's net is reached past the listed pins, where all ends are reached. It
/// goes on from each pin that is reached, once.
fn misses_starts(
    net: &Netlist,
    graph: &PbGraph,
    task: &Task,
    trail: &Trail,
    need: Need,
    listed: &SparseSet,
    reached: &mut SparseSet,
) -> bool
    requires task { IsTaskOf graph.now task.now }
    requires atoms { trail.now.atoms ≡ length task.now.atoms }
    requires instances { trail.now.instances ≡ length graph.now.instances }
    requires pins { trail.now.pins ≡ length graph.now.pins }
    requires listed { listed.now.room ≡ length graph.now.pins }
    requires room { reached.old.room ≡ length graph.now.pins }
    requires walk { IsWalk graph.now net.now.atoms task.now trail.now.made need listed.now.items
        reached.old.items
        0 }
    ensures blocked { IsTrue result ↔ IsBlocked graph.now net.now.atoms task.now trail.now.made
        need
        listed.now.items }
    ensures room { reached.new.room ≡ reached.old.room }
{
    let mut at = 0;
    while at < reached.as_slice().len() {
        reached.law();
        let pin = PinIx(reached.as_slice()[at]);
        if !passes(net, graph, task, trail, need, pin, listed, reached) {
            return false;
        }
        at += 1;
    }
    true
}

/// Whether a pin is listed, or else is no source of a need's net: then what is one step back from
/// it is added.
fn passes(
    net: &Netlist,
    graph: &PbGraph,
    task: &Task,
    trail: &Trail,
    need: Need,
    pin: PinIx,
    listed: &SparseSet,
    reached: &mut SparseSet,
) -> bool
    requires task { IsTaskOf graph.now task.now }
    requires pin { pin.0 < length graph.now.pins }
    requires atoms { trail.now.atoms ≡ length task.now.atoms }
    requires instances { trail.now.instances ≡ length graph.now.instances }
    requires pins { trail.now.pins ≡ length graph.now.pins }
    requires listed { listed.now.room ≡ length graph.now.pins }
    requires room { reached.old.room ≡ length graph.now.pins }
    ensures room { reached.new.room ≡ reached.old.room }
    ensures on { OnTrue result ((at : ℕ) → slice_get reached.old.items at ≡ Some pin.0 → IsWalk
        graph.now net.now.atoms task.now trail.now.made need listed.now.items reached.old.items at
        → IsWalk graph.now net.now.atoms task.now trail.now.made need listed.now.items
        reached.new.items
        (at + 1)) }
    ensures source { OnFalse result ((Has listed.now.items pin.0 → ⊥) × MayStart graph.now
        net.now.atoms task.now trail.now.made need pin.0) }
{
    if listed.contains(pin.0) {
        return true;
    }
    if may_start(net, graph, task, trail, need, pin) {
        return false;
    }
    put_steps(graph, trail, pin, reached);
    true
}
