ghost use Rattle.std.specs.Prelude.{◌≡◌, ◌++◌, OnOk};
ghost use Rattle.std.specs.List.{All};
ghost use Rattle.tree_lines.specs.Nodes.{task_names};
ghost use Rattle.tree_text.specs.Text.{HasAtoms};
ghost use Rattle.tree_write.specs.Spelling.{tree_text};
ghost use Rattle.tree_write.specs.There.{IsThere};

use crate::node::put_node;
use net_types::Netlist;
use pb_expand::PbGraph;
use std::alloc::AllocError;
use task_types::{Task, Tree};

/// Appends a tree as text, which names what is there: a line for each node, in preorder, its words
/// divided by one blank each, ended by a line feed.
pub fn write_tree(
    out: &mut Vec<u8>,
    net: &Netlist,
    graph: &PbGraph,
    task: &Task,
    tree: &Tree,
) -> Result<(), AllocError>
    requires atoms { HasAtoms net.now.atoms task.now }
    requires there { All (IsThere graph.now task.now) tree.now }
    ensures { OnOk result (out.new.items ≡ out.old.items
        ++ tree_text graph.now (task_names net.now.atoms task.now) tree.now) }
{
    for node in tree.nodes() {
        put_node(out, net, graph, task, node)?;
    }
    Ok(())
}
