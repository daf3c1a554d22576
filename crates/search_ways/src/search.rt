ghost use Rattle.std.specs.Prelude.{◌≡◌, ◌≤◌, ℕ, [], IfOk, IfSome, IfNone, OnOk, length};
ghost use Rattle.vtr_base.specs.Lists.{Has};
ghost use Rattle.search_rules.specs.Closing.{HasWay};
ghost use Rattle.sparse_set.specs.Sets.{held_on};
ghost use Rattle.task_reach.specs.Valid.{IsTaskOf, IsNeedOf};
ghost use Rattle.search_ways.specs.Traces.{AreTraced, IsReached, IsStart, AreShut, IsFilled};

use net_types::Netlist;
use pb_expand::{PbGraph, PinIx};
use sparse_set::SparseSet;
use std::alloc::AllocError;
use task_reach::{may_start, put_ends, put_steps};
use task_trail::Trail;
use task_types::{Need, Task};

/// Searches a way of a need: breadth first from the pins at which the need may be met, back along
/// steps that may be taken, until the first pin from which its net may come. The answer is that
/// pin's place among those that were reached. Beside each of them stands the place of the pin from
/// which it was reached; nothing beside an end. It takes a step for each pin that is reached and for
/// what leads into it.
pub fn reach(
    net: &Netlist,
    graph: &PbGraph,
    task: &Task,
    trail: &Trail,
    need: Need,
    reached: &mut SparseSet,
    from: &mut Vec<Option<u32>>,
) -> Result<Option<u32>, AllocError>
    requires task { IsTaskOf graph.now task.now }
    requires need { IsNeedOf graph.now task.now need }
    requires atoms { trail.now.atoms ≡ length task.now.atoms }
    requires instances { trail.now.instances ≡ length graph.now.instances }
    requires pins { trail.now.pins ≡ length graph.now.pins }
    requires reached { reached.old ≡ held_on [] (length graph.now.pins) }
    requires from { from.old.items ≡ [] }
    ensures traced { OnOk result (AreTraced graph.now net.now.atoms task.now trail.now.made need
        reached.new.items from.new.items) }
    ensures reached { OnOk result ((pin : ℕ) → Has reached.new.items pin → IsReached graph.now
        net.now.atoms task.now trail.now.made need pin) }
    ensures found { IfOk result (λ place. IfSome place (IsStart graph.now net.now.atoms task.now
        trail.now.made need reached.new.items)) }
    ensures shut { IfOk result (λ place. IfNone place (AreShut graph.now net.now.atoms task.now
        trail.now.made need reached.new.items)) }
    ensures none { IfOk result (λ place. IfNone place (HasWay graph.now net.now.atoms task.now
        trail.now.made need → ⊥)) }
    ensures room { reached.new.room ≡ reached.old.room }
{
    graph.law();
    put_ends(net, graph, task, trail, need, reached);
    fill(reached.as_slice().len(), None, from)?;
    let mut place = 0;
    while place < reached.as_slice().len() {
        reached.law();
        let pin = PinIx(reached.as_slice()[place]);
        if may_start(net, graph, task, trail, need, pin) {
            return Ok(Some(place as u32));
        }
        put_steps(graph, trail, pin, reached);
        fill(reached.as_slice().len(), Some(place as u32), from)?;
        place += 1;
    }
    Ok(None)
}

/// Fills a list up to a length.
fn fill(long: usize, value: Option<u32>, from: &mut Vec<Option<u32>>) -> Result<(), AllocError>
    requires { length from.old.items ≤ long }
    ensures { OnOk result (IsFilled from.old.items from.new.items long value) }
{
    while from.len() < long {
        from.push(value)?;
    }
    Ok(())
}
