ghost use Rattle.std.specs.Prelude.{◌≡◌, ◌<◌, ◌-◌, ◌^◌, [], length};
ghost use Rattle.task_types.specs.Realises.{NothingRealises};
ghost use Rattle.task_types.specs.Trees.{IsWholeTree};
ghost use Rattle.task_reach.specs.Valid.{IsTaskOf};
ghost use Rattle.tree_verdict.specs.declared.verdict.Verdict.TheVariants.{Refutes};
ghost use Rattle.tree_verdict.specs.Verdicts.{IsVerdict};
ghost use Rattle.refute_check.specs.Rooms.{room_of, marks_of, trail_of};

use crate::accepts::accepts;
use crate::marks::Marks;
use crate::scratch::Scratch;
use crate::tally::Tally;
use net_types::Netlist;
use pb_expand::PbGraph;
use task_law::{one_net_law, refuting_law};
use task_trail::Trail;
use task_types::{Task, Tree, TreeNode};
use tree_steps::{go_on, rewind};
use tree_verdict::Verdict;

/// What a tree shows of a task: that nothing realises it, where each node is accepted and none is
/// loose; the first node that isn't accepted, in preorder from 0; or else how many branches and
/// loose nodes it has. It takes no memory and no recursion. A node takes the time of what it lists
/// and of the parts of the graph that it speaks of.
pub fn check_tree(
    net: &Netlist,
    graph: &PbGraph,
    task: &Task,
    tree: &Tree,
    scratch: &mut Scratch,
) -> Verdict
    requires task { IsTaskOf graph.now task.now }
    requires room { scratch.old ≡ room_of graph.now task.now }
    requires few { length tree.now < 2 ^ 32 - 1 }
    ensures verdict { IsVerdict graph.now net.now.atoms task.now tree.now result }
    ensures refuted { result ≡ Refutes → NothingRealises graph.now net.now.atoms task.now }
    ensures scratch { scratch.new ≡ scratch.old }
{
    tree.law();
    refuting_law(graph);
    one_net_law(net);
    walk(
        net,
        graph,
        task,
        tree.nodes(),
        &mut scratch.trail,
        &mut scratch.marks,
    )
}

/// The same for the nodes of a tree. What was decided above the node at hand is on the trail, and
/// what is still to be decided comes after its decisions.
fn walk(
    net: &Netlist,
    graph: &PbGraph,
    task: &Task,
    nodes: &[TreeNode],
    trail: &mut Trail,
    marks: &mut Marks,
) -> Verdict
    requires task { IsTaskOf graph.now task.now }
    requires whole { IsWholeTree nodes.now }
    requires few { length nodes.now < 2 ^ 32 - 1 }
    requires trail { trail.old ≡ trail_of graph.now task.now [] }
    requires marks { marks.old ≡ marks_of graph.now task.now }
    ensures verdict { IsVerdict graph.now net.now.atoms task.now nodes.now result }
    ensures trail { trail.new ≡ trail.old }
    ensures marks { marks.new ≡ marks.old }
{
    let mut tally = Tally {
        branches: 0,
        loose: 0,
    };
    for (at, node) in nodes.iter().enumerate() {
        if !accepts(net, graph, task, trail, node, marks) {
            rewind(trail);
            return Verdict::Wrong { node: at as u32 };
        }
        tally = tally.and(node);
        go_on(graph, task, trail, node);
    }
    tally.verdict()
}
