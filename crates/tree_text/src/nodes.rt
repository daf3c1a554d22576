ghost use Rattle.std.specs.Prelude.{◌≡◌, ◌≤◌, ◌<◌, ◌+◌, ◌^◌, length, IfOk, IfErr};
ghost use Rattle.std.specs.Str.Lines.{lines};
ghost use Rattle.prog_text.specs.Table.{AreNamesOf};
ghost use Rattle.task_types.specs.Trees.{IsWholeTree, kids_of};
ghost use Rattle.tree_text.specs.Text.{SpellNodes, Refuses};

use crate::TreeError;
use names::LentNames;
use pb_expand::PbGraph;
use prog_text::GraphNames;
use sqlite_items::Items;
use std::alloc::Global;
use task_types::{Task, TreeNode};
use text_parts::next_line;
use tree_lines::read_node;

/// Reads the nodes of one whole tree; `atoms` has the names of the task's atoms.
pub(crate) fn read_nodes(
    alloc: Global,
    bytes: &[u8],
    graph: &PbGraph,
    task: &Task,
    names: &GraphNames,
    atoms: &LentNames<'_>,
) -> Result<Items<TreeNode>, TreeError>
    requires { AreNamesOf graph.now names.now }
    ensures each { IfOk result (SpellNodes graph.now task.now atoms.now (lines bytes.now)) }
    ensures whole { IfOk result IsWholeTree }
    ensures refused { IfErr result (Refuses graph.now task.now atoms.now bytes.now) }
{
    let mut nodes = Vec::new(alloc);
    let mut left: u128 = 1;
    let mut number: u32 = 1;
    let mut rest = bytes;
    while let Some((line, behind)) = next_line(rest) {
        let Some(node) = read_node(alloc, line, graph, task, names, atoms)? else {
            return Err(TreeError::BadTree { line: number });
        };
        if left == 0 {
            return Err(TreeError::TreeShape { line: number });
        }
        left = left - 1 + u128::from(kids(&node));
        nodes.push(node)?;
        number = number.saturating_add(1);
        rest = behind;
    }
    if left > 0 {
        return Err(TreeError::TreeShape { line: number });
    }
    Ok(Items::from_vec(nodes))
}

/// How many subtrees follow a node.
fn kids(node: &TreeNode) -> u32
    ensures is { result ≡ kids_of node.now }
    ensures narrow { result < 2 ^ 32 }
{
    match node {
        TreeNode::Branch { kids, .. } => *kids,
        TreeNode::Homeless(_) | TreeNode::Cut { .. } | TreeNode::Crowd { .. } | TreeNode::Loose =>
            0,
    }
}
