ghost use Rattle.std.specs.Prelude.{◌≡◌, ◌≤◌, ◌<◌, ◌-◌, ◌^◌, List, length, IfOk, IfErr};
ghost use Rattle.prog_text.specs.Plain.{HasPlainNames};
ghost use Rattle.run_base.specs.Worlds.{room};
ghost use Rattle.task_reach.specs.Valid.{IsTaskOf};
ghost use Rattle.task_rules.specs.Valid.{IsValid};
ghost use Rattle.task_types.specs.declared.tree.TreeNode.{TreeNode};
ghost use Rattle.task_types.specs.Realises.{NothingRealises};
ghost use Rattle.tree_lines.specs.Nodes.{task_names};
ghost use Rattle.tree_text.specs.Text.{SpellsTree};
ghost use Rattle.tree_verdict.specs.declared.verdict.Verdict.TheVariants.{Refutes};
ghost use Rattle.tree_verdict.specs.Verdicts.{IsVerdict};
ghost use Rattle.cmd_refute.specs.Refute.{Judges, IsRefusedTree};

use net_types::Netlist;
use pb_expand::PbGraph;
use refute_check::{Scratch, check_tree};
use run_base::{Stop, refused_by};
use std::alloc::{AllocError, Global};
use task_there::there_law;
use task_types::{Task, Tree};
use tree_text::{laws_of_trees, read_tree};
use tree_verdict::Verdict;

/// The verdict on the tree that the bytes of its file spell.
pub(crate) fn verdict_on(
    alloc: Global,
    file: &str,
    bytes: &[u8],
    net: &Netlist,
    graph: &PbGraph,
    task: &Task,
) -> Result<Verdict, Stop>
    requires plain { HasPlainNames graph.now.root }
    requires valid { IsValid graph.now net.now.atoms task.now }
    requires few { length bytes.now ≤ room }
    ensures judges { IfOk result (Judges graph.now net.now.atoms task.now bytes.now) }
    ensures stopped { IfErr result (IsRefusedTree graph.now net.now.atoms task.now file.now
        bytes.now) }
    ensures complete { (nodes : List TreeNode) → SpellsTree graph.now task.now
        (task_names net.now.atoms task.now) bytes.now nodes → IfErr result (λ s. s ≡ Stop.Memory) }
{
    there_law(net);
    laws_of_trees(net, graph, task);
    match read_tree(alloc, bytes, net, graph, task) {
        Ok(tree) => Ok(judge(alloc, net, graph, task, &tree)?),
        Err(error) => Err(refused_by(alloc, file, &error)),
    }
}

/// The verdict on a tree.
fn judge(
    alloc: Global,
    net: &Netlist,
    graph: &PbGraph,
    task: &Task,
    tree: &Tree,
) -> Result<Verdict, AllocError>
    requires task { IsTaskOf graph.now task.now }
    requires few { length tree.now < 2 ^ 32 - 1 }
    ensures verdict { IfOk result (IsVerdict graph.now net.now.atoms task.now tree.now) }
    ensures refuted { IfOk result (λ v. v ≡ Refutes → NothingRealises graph.now net.now.atoms
        task.now) }
{
    let mut scratch = Scratch::for_task(alloc, graph, task)?;
    Ok(check_tree(net, graph, task, tree, &mut scratch))
}
