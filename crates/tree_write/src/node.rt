ghost use Rattle.std.specs.Prelude.{◌≡◌, ◌++◌, OnOk};
ghost use Rattle.task_types.specs.declared.tree.TreeNode.TheVariants.{Branch};
ghost use Rattle.task_types.specs.Options.{IsVar};
ghost use Rattle.tree_lines.specs.Nodes.{task_names};
ghost use Rattle.tree_text.specs.Text.{HasAtoms};
ghost use Rattle.tree_write.specs.Spelling.{node_text};
ghost use Rattle.tree_write.specs.There.{IsThere};

use crate::variable::put_var;
use crate::words::{put_atoms, put_need, put_needs, put_pins};
use net_types::Netlist;
use pb_expand::PbGraph;
use std::alloc::AllocError;
use task_types::{Task, TreeNode, Var};
use vtr_base::put_number;

/// Appends the line of a node.
pub(crate) fn put_node(
    out: &mut Vec<u8>,
    net: &Netlist,
    graph: &PbGraph,
    task: &Task,
    node: &TreeNode,
) -> Result<(), AllocError>
    requires atoms { HasAtoms net.now.atoms task.now }
    requires there { IsThere graph.now task.now node.now }
    ensures { OnOk result (out.new.items ≡ out.old.items
        ++ node_text graph.now (task_names net.now.atoms task.now) node.now) }
{
    match node {
        TreeNode::Branch { var, kids } => put_branch(out, net, graph, task, *var, *kids),
        TreeNode::Homeless(atoms) => {
            out.extend_from_slice(b"homeless")?;
            put_atoms(out, net, task, atoms.as_slice())?;
            out.push(b'\n')?;
            Ok(())
        }
        TreeNode::Cut { need, pins } => {
            out.extend_from_slice(b"cut")?;
            put_need(out, *need)?;
            put_pins(out, graph, pins.as_slice())?;
            out.push(b'\n')?;
            Ok(())
        }
        TreeNode::Crowd { needs, pins } => {
            out.extend_from_slice(b"crowd")?;
            put_needs(out, needs.as_slice())?;
            out.extend_from_slice(b" /")?;
            put_pins(out, graph, pins.as_slice())?;
            out.push(b'\n')?;
            Ok(())
        }
        TreeNode::Loose => out.extend_from_slice(b"open\n"),
    }
}

/// Appends the line of a branch.
fn put_branch(
    out: &mut Vec<u8>,
    net: &Netlist,
    graph: &PbGraph,
    task: &Task,
    var: Var,
    kids: u32,
) -> Result<(), AllocError>
    requires { IsVar graph.now task.now var }
    ensures { OnOk result (out.new.items ≡ out.old.items
        ++ node_text graph.now (task_names net.now.atoms task.now) (Branch var kids)) }
{
    let _net = net;
    out.extend_from_slice(b"branch ")?;
    put_var(out, graph, task, var)?;
    out.push(b' ')?;
    put_number(out, u64::from(kids))?;
    out.push(b'\n')?;
    Ok(())
}
