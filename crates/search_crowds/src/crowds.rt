ghost use Rattle.std.specs.Prelude.{◌≡◌, ◌<◌, ◌^◌, [], IfOk, IfSome, IfNone, length, map};
ghost use Rattle.pb_expand.specs.Graph.{pin_ix};
ghost use Rattle.sparse_set.specs.Sets.{held_on};
ghost use Rattle.task_reach.specs.Valid.{IsTaskOf};
ghost use Rattle.search_rules.specs.Closing.{Closes, AreUncrowded};

use crate::firsts::first_needs;
use crate::flows::flow_of;
use crowd_cuts::Flow;
use net_types::Netlist;
use pb_expand::{PbGraph, PinIx};
use sparse_set::SparseSet;
use sqlite_items::Items;
use std::alloc::{AllocError, Global};
use task_trail::Trail;
use task_types::{Task, TreeNode};

/// A leaf of a tree that closes the node where so much is decided, since its needs, of different
/// nets, can't but pass its pins, which are fewer than they; or none, where the nets' first needs
/// have ways that share no pin. It goes over what is reached from the ends of these needs, searches
/// it for as many ways as they are, and leaves both sets empty.
pub fn find_crowd(
    alloc: Global,
    net: &Netlist,
    graph: &PbGraph,
    task: &Task,
    trail: &Trail,
    nets: &mut SparseSet,
    reached: &mut SparseSet,
) -> Result<Option<TreeNode>, AllocError>
    requires task { IsTaskOf graph.now task.now }
    requires few_needs { length task.now.needs < 2 ^ 32 }
    requires atoms { trail.now.atoms ≡ length task.now.atoms }
    requires instances { trail.now.instances ≡ length graph.now.instances }
    requires pins { trail.now.pins ≡ length graph.now.pins }
    requires nets { nets.old ≡ held_on [] (length task.now.nets) }
    requires reached { reached.old ≡ held_on [] (length graph.now.pins) }
    ensures closes { IfOk result (λ found. IfSome found
        (Closes graph.now net.now.atoms task.now trail.now.made)) }
    ensures uncrowded { IfOk result (λ found. IfNone found
        (AreUncrowded graph.now net.now.atoms task.now trail.now.made)) }
    ensures nets { nets.new ≡ nets.old }
    ensures reached { reached.new ≡ reached.old }
{
    let firsts = first_needs(alloc, task, nets);
    nets.clear();
    let needs = firsts?;
    let flow = flow_of(alloc, net, graph, task, trail, needs.as_slice(), reached);
    reached.clear();
    match flow? {
        Flow::Paths(_) => Ok(None),
        Flow::CutSet(cut) => Ok(Some(TreeNode::Crowd {
            needs: Items::from_vec(needs),
            pins: Items::from_vec(pins_of(alloc, cut.as_slice())?),
        })),
    }
}

/// The pins of those numbers.
fn pins_of(alloc: Global, numbers: &[u32]) -> Result<Vec<PinIx>, AllocError>
    ensures { IfOk result (λ pins. pins.items ≡ map pin_ix numbers.now) }
{
    numbers.iter().map(|number| PinIx(*number)).collect(alloc)
}
