ghost use Rattle.std.specs.Prelude.{◌≡◌, ◌<◌, ◌^◌, [], IfOk, OnOk, length};
ghost use Rattle.task_trail.specs.Decided.{decided_on};
ghost use Rattle.task_reach.specs.Valid.{IsTaskOf};
ghost use Rattle.tree_steps.specs.Owing.{IsPath};
ghost use Rattle.search_rules.specs.Closing.{IsHopeful};
ghost use Rattle.search_rules.specs.Left.{HasLeafHomes, HasSomeModes};
ghost use Rattle.search_loop.specs.Writing.{IsOpened, StandsAsLeaf, IsFilled, IsLeftOpen};
ghost use Rattle.search_loop.specs.Outcomes.{IsOutcome};

use crate::guide::Guide;
use crate::outcome::Outcome;
use crate::write::{put_branch, put_leaf};
use net_types::Netlist;
use pb_expand::PbGraph;
use search_rules::hope_law;
use sqlite_items::Items;
use std::alloc::{AllocError, Global};
use task_trail::Trail;
use task_types::{Task, Tree, TreeNode};

/// Searches the tree of a task depth first, its nodes in preorder, with so many branches at most,
/// from a trail on which nothing is decided. Where it gives up, each tree that is still to come gets
/// a leaf that closes it, or else a loose one. There is no stack beside the trail.
pub fn search<G: Guide>(
    alloc: Global,
    guide: &mut G,
    net: &Netlist,
    graph: &PbGraph,
    task: &Task,
    trail: &mut Trail,
    nodes: u64,
) -> Result<Outcome, AllocError>
    requires fit { G.is_fit guide.old graph.now task.now }
    requires task { IsTaskOf graph.now task.now }
    requires few_needs { length task.now.needs < 2 ^ 32 }
    requires homes { HasLeafHomes graph.now task.now }
    requires modes { HasSomeModes graph.now }
    requires atoms { trail.old.atoms ≡ length task.now.atoms }
    requires instances { trail.old.instances ≡ length graph.now.instances }
    requires pins { trail.old.pins ≡ length graph.now.pins }
    requires empty { trail.old.made ≡ [] }
    ensures outcome { IfOk result (IsOutcome graph.now net.now.atoms task.now nodes trail.new.made) }
    ensures sizes { trail.new ≡ decided_on trail.new.made trail.old.instances trail.old.pins
        trail.old.atoms }
    ensures fit { G.is_fit guide.new graph.now task.now }
{
    hope_law(graph);
    graph.lists_ends();
    let mut tree = Items::new(alloc);
    let mut branches: u64 = 0;
    loop {
        if let Some(leaf) = guide.close(alloc, net, graph, task, trail)? {
            if put_leaf(graph, task, trail, &mut tree, leaf)? {
                return Ok(Outcome::Refuted(Tree::from_nodes(tree)));
            }
        } else {
            let Some(var) = guide.next_var(alloc, net, graph, task, trail)? else {
                return Ok(Outcome::Found);
            };
            if branches == nodes {
                leave_open(alloc, guide, net, graph, task, trail, &mut tree)?;
                return Ok(Outcome::GivenUp(Tree::from_nodes(tree)));
            }
            branches += 1;
            put_branch(graph, task, trail, &mut tree, var)?;
        }
    }
}

/// Leaves the tree at hand open, and writes a leaf for each other that is still to come.
fn leave_open<G: Guide>(
    alloc: Global,
    guide: &mut G,
    net: &Netlist,
    graph: &PbGraph,
    task: &Task,
    trail: &mut Trail,
    tree: &mut Items<TreeNode>,
) -> Result<(), AllocError>
    requires fit { G.is_fit guide.old graph.now task.now }
    requires task { IsTaskOf graph.now task.now }
    requires few_needs { length task.now.needs < 2 ^ 32 }
    requires homes { HasLeafHomes graph.now task.now }
    requires atoms { trail.old.atoms ≡ length task.now.atoms }
    requires instances { trail.old.instances ≡ length graph.now.instances }
    requires pins { trail.old.pins ≡ length graph.now.pins }
    requires opened { IsOpened graph.now net.now.atoms task.now tree.old trail.old.made }
    requires hopeful { IsHopeful graph.now net.now.atoms task.now trail.old.made }
    ensures open { OnOk result (IsLeftOpen graph.now net.now.atoms task.now tree.old tree.new) }
    ensures sizes { trail.new ≡ decided_on trail.new.made trail.old.instances trail.old.pins
        trail.old.atoms }
    ensures fit { G.is_fit guide.new graph.now task.now }
{
    hope_law(graph);
    if put_leaf(graph, task, trail, tree, TreeNode::Loose)? {
        return Ok(());
    }
    fill(alloc, guide, net, graph, task, trail, tree)?;
    Ok(())
}

/// Writes a leaf for each tree that is still to come.
fn fill<G: Guide>(
    alloc: Global,
    guide: &mut G,
    net: &Netlist,
    graph: &PbGraph,
    task: &Task,
    trail: &mut Trail,
    tree: &mut Items<TreeNode>,
) -> Result<(), AllocError>
    requires fit { G.is_fit guide.old graph.now task.now }
    requires task { IsTaskOf graph.now task.now }
    requires few_needs { length task.now.needs < 2 ^ 32 }
    requires homes { HasLeafHomes graph.now task.now }
    requires atoms { trail.old.atoms ≡ length task.now.atoms }
    requires instances { trail.old.instances ≡ length graph.now.instances }
    requires pins { trail.old.pins ≡ length graph.now.pins }
    requires opened { IsOpened graph.now net.now.atoms task.now tree.old trail.old.made }
    ensures filled { OnOk result (IsFilled graph.now net.now.atoms task.now tree.old tree.new) }
    ensures sizes { trail.new ≡ decided_on trail.new.made trail.old.instances trail.old.pins
        trail.old.atoms }
    ensures fit { G.is_fit guide.new graph.now task.now }
{
    loop {
        let leaf = leaf_here(alloc, guide, net, graph, task, trail)?;
        if put_leaf(graph, task, trail, tree, leaf)? {
            return Ok(());
        }
    }
}

/// The leaf that closes the tree at hand, or else a loose one.
fn leaf_here<G: Guide>(
    alloc: Global,
    guide: &mut G,
    net: &Netlist,
    graph: &PbGraph,
    task: &Task,
    trail: &Trail,
) -> Result<TreeNode, AllocError>
    requires fit { G.is_fit guide.old graph.now task.now }
    requires task { IsTaskOf graph.now task.now }
    requires few_needs { length task.now.needs < 2 ^ 32 }
    requires homes { HasLeafHomes graph.now task.now }
    requires atoms { trail.now.atoms ≡ length task.now.atoms }
    requires instances { trail.now.instances ≡ length graph.now.instances }
    requires pins { trail.now.pins ≡ length graph.now.pins }
    requires path { IsPath graph.now task.now trail.now.made }
    ensures leaf { IfOk result (StandsAsLeaf graph.now net.now.atoms task.now trail.now.made) }
    ensures fit { G.is_fit guide.new graph.now task.now }
{
    hope_law(graph);
    match guide.close(alloc, net, graph, task, trail)? {
        Some(leaf) => Ok(leaf),
        None => Ok(TreeNode::Loose),
    }
}
