ghost use Rattle.std.specs.Prelude.{◌≡◌, ◌↔◌, [], Some, IsTrue, length, slice_get};
ghost use Rattle.task_types.specs.declared.task.Need.{Need as NeedSaid};
ghost use Rattle.sparse_set.specs.Sets.{held_on};
ghost use Rattle.task_types.specs.Nodes.{IsCrowd};
ghost use Rattle.task_reach.specs.Valid.{IsTaskOf, EntersAtRoot};
ghost use Rattle.node_crowd.specs.Blocking.{AreApart, AreBlocked, IsBlocked};

use crate::blocked::is_blocked;
use net_types::Netlist;
use pb_expand::{PbGraph, PinIx};
use sparse_set::SparseSet;
use task_reach::{is_active, net_of, put_pins};
use task_trail::Trail;
use task_types::Task;

/// Whether these are active needs of different nets, more than the pins, and each way from an end
/// of one of them to a source of its net meets a pin of the list. It goes over what is reached from
/// the ends, and leaves the sets empty.
pub fn is_crowd(
    net: &Netlist,
    graph: &PbGraph,
    task: &Task,
    trail: &Trail,
    needs: &[u32],
    pins: &[PinIx],
    nets: &mut SparseSet,
    listed: &mut SparseSet,
    reached: &mut SparseSet,
) -> bool
    requires task { IsTaskOf graph.now task.now }
    requires atoms { trail.now.atoms ≡ length task.now.atoms }
    requires instances { trail.now.instances ≡ length graph.now.instances }
    requires pins { trail.now.pins ≡ length graph.now.pins }
    requires root { EntersAtRoot graph.now trail.now.made }
    requires nets { nets.old ≡ held_on [] (length task.now.nets) }
    requires listed { listed.old ≡ held_on [] (length graph.now.pins) }
    requires reached { reached.old ≡ held_on [] (length graph.now.pins) }
    ensures crowd { IsTrue result ↔ IsCrowd graph.now net.now.atoms task.now trail.now.made
        needs.now
        pins.now }
    ensures nets { nets.new ≡ nets.old }
    ensures listed { listed.new ≡ listed.old }
    ensures reached { reached.new ≡ reached.old }
{
    graph.law();
    if pins.len() >= needs.len() {
        return false;
    }
    let apart = are_apart(graph, task, trail, needs, nets);
    nets.clear();
    if !apart {
        return false;
    }
    put_pins(graph, pins, listed);
    let blocked = are_blocked(net, graph, task, trail, needs, listed, reached);
    listed.clear();
    blocked
}

/// Whether these are active needs of different nets. The nets are in the set then.
fn are_apart(
    graph: &PbGraph,
    task: &Task,
    trail: &Trail,
    needs: &[u32],
    nets: &mut SparseSet,
) -> bool
    requires task { IsTaskOf graph.now task.now }
    requires pins { trail.now.pins ≡ length graph.now.pins }
    requires root { EntersAtRoot graph.now trail.now.made }
    requires nets { nets.old ≡ held_on [] (length task.now.nets) }
    ensures apart { IsTrue result ↔ AreApart task.now trail.now.made needs.now }
    ensures room { nets.new.room ≡ nets.old.room }
{
    for number in needs {
        let Some(need) = task.needs.get(*number as usize).copied() else {
            return false;
        };
        if !is_active(graph, task, trail, need) {
            return false;
        }
        if !nets.insert(net_of(need)) {
            return false;
        }
    }
    true
}

/// Whether each of some needs is blocked by the listed pins.
fn are_blocked(
    net: &Netlist,
    graph: &PbGraph,
    task: &Task,
    trail: &Trail,
    needs: &[u32],
    listed: &SparseSet,
    reached: &mut SparseSet,
) -> bool
    requires task { IsTaskOf graph.now task.now }
    requires atoms { trail.now.atoms ≡ length task.now.atoms }
    requires instances { trail.now.instances ≡ length graph.now.instances }
    requires pins { trail.now.pins ≡ length graph.now.pins }
    requires listed { listed.now.room ≡ length graph.now.pins }
    requires reached { reached.old ≡ held_on [] (length graph.now.pins) }
    ensures blocked { IsTrue result ↔ AreBlocked graph.now net.now.atoms task.now trail.now.made
        needs.now
        listed.now.items }
    ensures reached { reached.new ≡ reached.old }
{
    for number in needs {
        if !is_blocked_at(net, graph, task, trail, *number, listed, reached) {
            return false;
        }
    }
    true
}

/// Whether the need of that number, where there is one, is blocked by the listed pins.
fn is_blocked_at(
    net: &Netlist,
    graph: &PbGraph,
    task: &Task,
    trail: &Trail,
    number: u32,
    listed: &SparseSet,
    reached: &mut SparseSet,
) -> bool
    requires task { IsTaskOf graph.now task.now }
    requires atoms { trail.now.atoms ≡ length task.now.atoms }
    requires instances { trail.now.instances ≡ length graph.now.instances }
    requires pins { trail.now.pins ≡ length graph.now.pins }
    requires listed { listed.now.room ≡ length graph.now.pins }
    requires reached { reached.old ≡ held_on [] (length graph.now.pins) }
    ensures blocked { IsTrue result ↔ ((need : NeedSaid) → slice_get task.now.needs number ≡ Some
        need → IsBlocked graph.now net.now.atoms task.now trail.now.made need listed.now.items) }
    ensures reached { reached.new ≡ reached.old }
{
    match task.needs.get(number as usize).copied() {
        None => true,
        Some(need) => is_blocked(net, graph, task, trail, need, listed, reached),
    }
}
