ghost use Rattle.std.specs.Prelude.{◌≡◌, ◌<◌, ◌^◌, ℕ, [], IfOk, length};
ghost use Rattle.vtr_base.specs.Lists.{Has};
ghost use Rattle.sparse_set.specs.Sets.{held_on};
ghost use Rattle.task_reach.specs.Valid.{IsTaskOf};
ghost use Rattle.search_crowds.specs.Webs.{IsFlowOf};

use crate::edges::spread;
use crate::ports::{put_all_ends, sources_among};
use crowd_cuts::{Flow, Plain, disjoint_paths};
use net_types::Netlist;
use pb_expand::PbGraph;
use sparse_set::SparseSet;
use sqlite_items::Items;
use std::alloc::{AllocError, Global};
use task_trail::Trail;
use task_types::Task;

/// As many ways as needs, from ends of them to sources of them, by steps back that may be taken and
/// no two through the same pin; or fewer pins that each such way passes. What is reached from the
/// ends is in the set then. A graph of 2^31 pins or more counts as one that memory doesn't hold.
pub(crate) fn flow_of(
    alloc: Global,
    net: &Netlist,
    graph: &PbGraph,
    task: &Task,
    trail: &Trail,
    needs: &[u32],
    reached: &mut SparseSet,
) -> Result<Flow, AllocError>
    requires task { IsTaskOf graph.now task.now }
    requires needs { (number : ℕ) → Has needs.now number → number < length task.now.needs }
    requires few { length needs.now < 2 ^ 32 }
    requires atoms { trail.now.atoms ≡ length task.now.atoms }
    requires instances { trail.now.instances ≡ length graph.now.instances }
    requires pins { trail.now.pins ≡ length graph.now.pins }
    requires reached { reached.old ≡ held_on [] (length graph.now.pins) }
    ensures flow { IfOk result
        (IsFlowOf graph.now net.now.atoms task.now trail.now.made needs.now) }
    ensures room { reached.new.room ≡ reached.old.room }
{
    let nodes = graph.pins();
    if nodes >= 0x8000_0000 {
        return Err(AllocError);
    }
    put_all_ends(net, graph, task, trail, needs, reached);
    let ends = Items::from_slice(alloc, reached.as_slice())?;
    let mut steps = SparseSet::with_room(alloc, nodes)?;
    let edges = spread(alloc, graph, trail, reached, &mut steps)?;
    reached.law();
    let pins = reached.as_slice();
    let sources = sources_among(alloc, net, graph, task, trail, needs, pins)?;
    let plain = Plain {
        nodes,
        edges: Items::from_vec(edges),
    };
    disjoint_paths(
        alloc,
        &plain,
        ends.as_slice(),
        sources.as_slice(),
        needs.len() as u32,
    )
}
