ghost use Rattle.std.specs.Prelude.{◌≡◌, [], IfOk, IfSome, IfNone, length};
ghost use Rattle.sparse_set.specs.Sets.{held_on};
ghost use Rattle.task_reach.specs.Valid.{IsTaskOf, EntersAtRoot};
ghost use Rattle.search_rules.specs.Closing.{HaveAllWays};
ghost use Rattle.search_rules.specs.Left.{IsNextVar, IsAllDecided, HasLeafHomes};

use crate::vars::{next_leaf, next_mode};
use crate::ways::next_on_ways;
use net_types::Netlist;
use pb_expand::PbGraph;
use sparse_set::SparseSet;
use std::alloc::{AllocError, Global};
use task_trail::Trail;
use task_types::{Task, Var};

/// What is to be decided next, where each active need has a way: the mode of the first live instance
/// of which it isn't decided, else the use of the first such leaf, else an entry or an edge on a way
/// of the first active need whose way has one. Nothing, where all is decided. It goes over the
/// instances and then over the needs, and leaves the set empty.
pub fn next_var(
    alloc: Global,
    net: &Netlist,
    graph: &PbGraph,
    task: &Task,
    trail: &Trail,
    reached: &mut SparseSet,
) -> Result<Option<Var>, AllocError>
    requires task { IsTaskOf graph.now task.now }
    requires homes { HasLeafHomes graph.now task.now }
    requires atoms { trail.now.atoms ≡ length task.now.atoms }
    requires instances { trail.now.instances ≡ length graph.now.instances }
    requires pins { trail.now.pins ≡ length graph.now.pins }
    requires root { EntersAtRoot graph.now trail.now.made }
    requires ways { HaveAllWays graph.now net.now.atoms task.now trail.now.made }
    requires reached { reached.old ≡ held_on [] (length graph.now.pins) }
    ensures some { IfOk result (λ var. IfSome var (IsNextVar graph.now net.now.atoms task.now
        trail.now.made)) }
    ensures none { IfOk result (λ var. IfNone var (IsAllDecided graph.now net.now.atoms task.now
        trail.now.made)) }
    ensures reached { reached.new ≡ reached.old }
{
    if let Some(var) = next_mode(graph, task, trail) {
        return Ok(Some(var));
    }
    if let Some(var) = next_leaf(graph, task, trail) {
        return Ok(Some(var));
    }
    next_on_ways(alloc, net, graph, task, trail, reached)
}
