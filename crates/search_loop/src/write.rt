ghost use Rattle.std.specs.Prelude.{◌≡◌, ◌<◌, ◌↔◌, ◌++◌, ◌∷◌, [], IfOk, OnOk, IsTrue, length};
ghost use Rattle.task_types.specs.Options.{IsLiveVar, IsUndecided};
ghost use Rattle.task_trail.specs.Decided.{decided_on};
ghost use Rattle.task_reach.specs.Valid.{IsTaskOf};
ghost use Rattle.tree_steps.specs.Owing.{IsPath};
ghost use Rattle.search_rules.specs.Left.{HasSomeModes};
ghost use Rattle.search_loop.specs.Writing.{IsLeafNode, GoesOn, IsBranched};

use pb_expand::PbGraph;
use sqlite_items::Items;
use std::alloc::AllocError;
use task_options::option_count;
use task_trail::Trail;
use task_types::{Task, TreeNode, Var};
use tree_steps::go_on;

/// Writes a leaf, and goes on to the next tree to come; whether none is to come.
pub(crate) fn put_leaf(
    graph: &PbGraph,
    task: &Task,
    trail: &mut Trail,
    tree: &mut Items<TreeNode>,
    leaf: TreeNode,
) -> Result<bool, AllocError>
    requires task { IsTaskOf graph.now task.now }
    requires atoms { trail.old.atoms ≡ length task.now.atoms }
    requires instances { trail.old.instances ≡ length graph.now.instances }
    requires pins { trail.old.pins ≡ length graph.now.pins }
    requires path { IsPath graph.now task.now trail.old.made }
    requires leaf { IsLeafNode leaf }
    ensures sizes { trail.new ≡ decided_on trail.new.made trail.old.instances trail.old.pins
        trail.old.atoms }
    ensures written { OnOk result (tree.new ≡ tree.old ++ leaf ∷ []) }
    ensures goes { IfOk result (λ last. GoesOn graph.now task.now trail.old.made trail.new.made last) }
{
    go_on(graph, task, trail, &leaf);
    tree.push(leaf)?;
    Ok(is_bare(trail))
}

/// Writes a branch on a variable, and goes on to its first option. More options than a node can
/// count are more than there is memory for.
pub(crate) fn put_branch(
    graph: &PbGraph,
    task: &Task,
    trail: &mut Trail,
    tree: &mut Items<TreeNode>,
    var: Var,
) -> Result<(), AllocError>
    requires task { IsTaskOf graph.now task.now }
    requires modes { HasSomeModes graph.now }
    requires atoms { trail.old.atoms ≡ length task.now.atoms }
    requires instances { trail.old.instances ≡ length graph.now.instances }
    requires pins { trail.old.pins ≡ length graph.now.pins }
    requires path { IsPath graph.now task.now trail.old.made }
    requires live { IsLiveVar graph.now task.now trail.old.made var }
    requires undecided { IsUndecided trail.old.made var }
    ensures sizes { trail.new ≡ decided_on trail.new.made trail.old.instances trail.old.pins
        trail.old.atoms }
    ensures branched { OnOk result (IsBranched graph.now task.now trail.old.made trail.new.made var
        tree.old tree.new) }
{
    graph.law();
    let Ok(kids) = u32::try_from(option_count(graph, task, trail, var)) else {
        return Err(AllocError);
    };
    let branch = TreeNode::Branch { var, kids };
    go_on(graph, task, trail, &branch);
    tree.push(branch)?;
    Ok(())
}

/// Whether nothing is decided.
fn is_bare(trail: &mut Trail) -> bool
    ensures bare { IsTrue result ↔ (trail.old.made ≡ []) }
    ensures same { trail.new ≡ trail.old }
{
    let Some(last) = trail.take_back() else {
        return true;
    };
    trail.decide(last);
    false
}
