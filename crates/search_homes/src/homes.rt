ghost use Rattle.std.specs.Prelude.{◌≡◌, IfOk, IfSome, IfNone, length};
ghost use Rattle.std.specs.List.{range_with_len};
ghost use Rattle.task_types.specs.Nets.{NetSaid};
ghost use Rattle.task_reach.specs.Valid.{IsTaskOf};
ghost use Rattle.search_rules.specs.Closing.{Closes, AreHoused};

use crate::pairs::open_pairs;
use matching::Matching;
use pb_expand::PbGraph;
use sqlite_items::Items;
use std::alloc::{AllocError, Global};
use task_trail::Trail;
use task_types::{Task, TreeNode};

/// A leaf of a tree that closes the node where so much is decided, since its atoms are more than
/// the leaves that are open to any of them; or none, where each atom of the task can have a leaf of
/// its own that is open to it. It matches the atoms with the leaves.
pub fn find_homeless(
    alloc: Global,
    graph: &PbGraph,
    task: &Task,
    trail: &Trail,
) -> Result<Option<TreeNode>, AllocError>
    requires task { IsTaskOf graph.now task.now }
    requires atoms { trail.now.atoms ≡ length task.now.atoms }
    requires instances { trail.now.instances ≡ length graph.now.instances }
    ensures closes { (n : NetSaid) → IfOk result (λ found. IfSome found
        (Closes graph.now n task.now trail.now.made)) }
    ensures housed { IfOk result (λ found. IfNone found
        (AreHoused graph.now task.now trail.now.made)) }
{
    let pairs = open_pairs(alloc, graph, task, trail)?;
    let atoms = task.atoms.len() as u32;
    let rows = numbers_below(alloc, atoms)?;
    let mut matching = Matching::new(alloc, rows, atoms, pairs, graph.pbs())?;
    match matching.complete(alloc)? {
        None => {
            matching.law();
            Ok(None)
        }
        Some(stuck) => Ok(Some(TreeNode::Homeless(Items::from_vec(stuck.lefts)))),
    }
}

/// The numbers below a limit.
fn numbers_below(alloc: Global, limit: u32) -> Result<Vec<u32>, AllocError>
    ensures { IfOk result (λ numbers. numbers.items ≡ range_with_len 0 limit) }
{
    (0..limit).collect(alloc)
}
