ghost use Rattle.std.specs.Prelude.{◌≡◌, ◌≤◌, ◌↔◌, ℕ, [], IsTrue, length};
ghost use Rattle.std.specs.Bool.{OnTrue, OnFalse};
ghost use Rattle.vtr_base.specs.Lists.{Has};
ghost use Rattle.sparse_set.specs.Sets.{held_on};
ghost use Rattle.task_types.specs.Open.{AllowsStep, MayStart};
ghost use Rattle.task_types.specs.Nodes.{IsCut};
ghost use Rattle.task_reach.specs.Gains.{Gains, FromFirst, FromItem};
ghost use Rattle.task_reach.specs.Valid.{IsTaskOf, IsNeedOf, EntersAtRoot};
ghost use Rattle.node_cut.specs.Barring.{Bars};

use net_types::Netlist;
use pb_expand::{PbGraph, PinIx};
use sparse_set::SparseSet;
use task_reach::{is_active, may_start, put_ends, put_pins, put_steps};
use task_trail::Trail;
use task_types::{Need, Task};

/// Whether that is an active need, and the pins hold each pin at which it may be met, are closed
/// under steps back that may be taken, and hold none from which its net may come. It goes over the
/// pins, what leads into them, and the leaves that are listed for the need's atom, and leaves the
/// set empty.
pub fn is_cut(
    net: &Netlist,
    graph: &PbGraph,
    task: &Task,
    trail: &Trail,
    number: u32,
    pins: &[PinIx],
    listed: &mut SparseSet,
) -> bool
    requires task { IsTaskOf graph.now task.now }
    requires atoms { trail.now.atoms ≡ length task.now.atoms }
    requires instances { trail.now.instances ≡ length graph.now.instances }
    requires pins { trail.now.pins ≡ length graph.now.pins }
    requires root { EntersAtRoot graph.now trail.now.made }
    requires listed { listed.old ≡ held_on [] (length graph.now.pins) }
    ensures cut { IsTrue result ↔ IsCut graph.now net.now.atoms task.now trail.now.made number
        pins.now }
    ensures listed { listed.new ≡ listed.old }
{
    graph.law();
    let Some(need) = task.needs.get(number as usize).copied() else {
        return false;
    };
    if !is_active(graph, task, trail, need) {
        return false;
    }
    put_pins(graph, pins, listed);
    let cut = bars(net, graph, task, trail, need, listed);
    listed.clear();
    cut
}

/// Whether the listed pins, which the graph has, hold all ends of a need, are closed under steps
/// back, and hold no source of its net. Others may be among them afterwards.
fn bars(
    net: &Netlist,
    graph: &PbGraph,
    task: &Task,
    trail: &Trail,
    need: Need,
    listed: &mut SparseSet,
) -> bool
    requires task { IsTaskOf graph.now task.now }
    requires need { IsNeedOf graph.now task.now need }
    requires atoms { trail.now.atoms ≡ length task.now.atoms }
    requires instances { trail.now.instances ≡ length graph.now.instances }
    requires pins { trail.now.pins ≡ length graph.now.pins }
    requires room { listed.old.room ≡ length graph.now.pins }
    ensures bars { IsTrue result ↔ Bars graph.now net.now.atoms task.now trail.now.made need
        listed.old.items }
    ensures room { listed.new.room ≡ listed.old.room }
{
    if has_start(net, graph, task, trail, need, listed) {
        return false;
    }
    let count = listed.as_slice().len();
    put_ends(net, graph, task, trail, need, listed);
    put_all_steps(graph, trail, count, listed);
    listed.law();
    listed.as_slice().len() == count
}

/// Whether the net of a need may come from a listed pin.
fn has_start(
    net: &Netlist,
    graph: &PbGraph,
    task: &Task,
    trail: &Trail,
    need: Need,
    listed: &SparseSet,
) -> bool
    requires task { IsTaskOf graph.now task.now }
    requires atoms { trail.now.atoms ≡ length task.now.atoms }
    requires instances { trail.now.instances ≡ length graph.now.instances }
    requires pins { trail.now.pins ≡ length graph.now.pins }
    requires room { listed.now.room ≡ length graph.now.pins }
    ensures some { OnTrue result ((pin : ℕ) × Has listed.now.items pin × MayStart graph.now
        net.now.atoms task.now trail.now.made need pin) }
    ensures none { OnFalse result ((pin : ℕ) → MayStart graph.now net.now.atoms task.now
        trail.now.made need pin → Has listed.now.items pin → ⊥) }
{
    listed.law();
    for pin in listed.as_slice() {
        if may_start(net, graph, task, trail, need, PinIx(*pin)) {
            return true;
        }
    }
    false
}

/// Adds the pins one step back from the first of those that are listed.
fn put_all_steps(graph: &PbGraph, trail: &Trail, count: usize, listed: &mut SparseSet)
    requires instances { trail.now.instances ≡ length graph.now.instances }
    requires pins { trail.now.pins ≡ length graph.now.pins }
    requires room { listed.old.room ≡ length graph.now.pins }
    requires count { count ≤ length listed.old.items }
    ensures gains { Gains listed.old.items listed.new.items (FromFirst (FromItem listed.old.items
        (AllowsStep graph.now trail.now.made)) count) }
    ensures room { listed.new.room ≡ listed.old.room }
{
    for place in 0..count {
        listed.law();
        let pin = listed.as_slice()[place];
        put_steps(graph, trail, PinIx(pin), listed);
    }
}
