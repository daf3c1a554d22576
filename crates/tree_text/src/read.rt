ghost use Rattle.std.specs.Prelude.{IfOk, IfErr};
ghost use Rattle.prog_text.specs.Plain.{HasPlainNames};
ghost use Rattle.tree_lines.specs.Nodes.{task_names};
ghost use Rattle.tree_text.specs.Text.{HasAtoms, SpellsTree, Refuses};

use crate::nodes::read_nodes;
use crate::{TreeError, task_atoms};
use net_types::Netlist;
use pb_expand::PbGraph;
use prog_text::GraphNames;
use std::alloc::Global;
use task_types::{Task, Tree};

/// Reads a tree: its nodes in preorder, one a line, `branch mode INST N`, `branch occupant INST N`,
/// `branch edge PIN MODE N` or `branch entry PIN N`, which is followed by N subtrees, `homeless`
/// and atoms, `cut` and a need and pins, `crowd` and needs and `/` and pins, or `open`; words are
/// divided by one blank each. The first line that is no node is told, or the first behind the
/// tree, or the one behind the last where the tree doesn't end. It takes time linear in the bytes,
/// the names of the graph and the atoms of the task, and a look-up or a few a word.
pub fn read_tree(
    alloc: Global,
    bytes: &[u8],
    net: &Netlist,
    graph: &PbGraph,
    task: &Task,
) -> Result<Tree, TreeError>
    requires plain { HasPlainNames graph.now.root }
    requires atoms { HasAtoms net.now.atoms task.now }
    ensures spells { IfOk result (SpellsTree graph.now task.now
        (task_names net.now.atoms task.now) bytes.now) }
    ensures refused { IfErr result (Refuses graph.now task.now
        (task_names net.now.atoms task.now) bytes.now) }
{
    let names = GraphNames::new(alloc, graph)?;
    let atoms = task_atoms(alloc, net, task)?;
    let nodes = read_nodes(alloc, bytes, graph, task, &names, &atoms)?;
    Ok(Tree::from_nodes(nodes))
}
