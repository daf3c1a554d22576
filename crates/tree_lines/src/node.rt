ghost use Rattle.std.specs.Prelude.{◌∷◌, IfOk, MatchOption, codes};
ghost use Rattle.prog_text.specs.Table.{AreNamesOf};
ghost use Rattle.task_types.specs.declared.tree.TreeNode.{TreeNode as Said};
ghost use Rattle.tree_lines.specs.Words.{texts};
ghost use Rattle.tree_lines.specs.Nodes.{SaysNode, SpellsNode};

use crate::branch::branch;
use crate::lists::{atoms_named, needs, pins_named};
use crate::numbers::need;
use crate::words::{cut_at, is_same};
use names::LentNames;
use pb_expand::PbGraph;
use prog_text::GraphNames;
use std::alloc::{AllocError, Global};
use task_types::{Task, TreeNode};
use text_parts::blank_parts;

/// The node that a line spells, if any; `atoms` has the names of the task's atoms by their places.
/// It takes time linear in the line, and a look-up or a few for each of its words.
pub fn read_node(
    alloc: Global,
    line: &[u8],
    graph: &PbGraph,
    task: &Task,
    names: &GraphNames,
    atoms: &LentNames<'_>,
) -> Result<Option<TreeNode>, AllocError>
    requires { AreNamesOf graph.now names.now }
    ensures { IfOk result (λ found. MatchOption found
        ((node : Said) → SpellsNode graph.now task.now atoms.now line.now node → ⊥)
        (SpellsNode graph.now task.now atoms.now line.now)) }
{
    let words = blank_parts(alloc, line)?;
    node_said(alloc, words.as_slice(), graph, task, names, atoms)
}

/// The node that these words say, if any.
fn node_said(
    alloc: Global,
    words: &[&[u8]],
    graph: &PbGraph,
    task: &Task,
    names: &GraphNames,
    atoms: &LentNames<'_>,
) -> Result<Option<TreeNode>, AllocError>
    requires { AreNamesOf graph.now names.now }
    ensures { IfOk result (λ found. MatchOption found
        ((node : Said) → SaysNode graph.now task.now atoms.now (texts words.now) node → ⊥)
        (SaysNode graph.now task.now atoms.now (texts words.now))) }
{
    let [keyword, rest @ ..] = words else {
        return Ok(None);
    };
    if is_same(keyword, b"branch") {
        return Ok(branch_node(rest, graph, task, names, atoms));
    }
    if is_same(keyword, b"homeless") {
        return homeless(alloc, rest, graph, task, atoms);
    }
    if is_same(keyword, b"cut") {
        return cut(alloc, rest, graph, task, names, atoms);
    }
    if is_same(keyword, b"crowd") {
        return crowd(alloc, rest, graph, task, names, atoms);
    }
    if is_same(keyword, b"open") {
        return Ok(open(rest, graph, task, atoms));
    }
    Ok(None)
}

/// The branch that the words behind `branch` say.
fn branch_node(
    words: &[&[u8]],
    graph: &PbGraph,
    task: &Task,
    names: &GraphNames,
    atoms: &LentNames<'_>,
) -> Option<TreeNode>
    requires { AreNamesOf graph.now names.now }
    ensures { MatchOption result
        ((node : Said) → SaysNode graph.now task.now atoms.now (codes "branch" ∷ texts words.now)
        node → ⊥)
        (SaysNode graph.now task.now atoms.now (codes "branch" ∷ texts words.now)) }
{
    let _atoms = atoms;
    let (var, kids) = branch(words, graph, task, names)?;
    Some(TreeNode::Branch { var, kids })
}

/// The atoms without homes that the words behind `homeless` say.
fn homeless(
    alloc: Global,
    words: &[&[u8]],
    graph: &PbGraph,
    task: &Task,
    atoms: &LentNames<'_>,
) -> Result<Option<TreeNode>, AllocError>
    ensures { IfOk result (λ found. MatchOption found
        ((node : Said) → SaysNode graph.now task.now atoms.now (codes "homeless" ∷ texts words.now)
        node → ⊥)
        (SaysNode graph.now task.now atoms.now (codes "homeless" ∷ texts words.now))) }
{
    let _graph = graph;
    let _task = task;
    match atoms_named(alloc, words, atoms)? {
        Some(list) => Ok(Some(TreeNode::Homeless(list))),
        None => Ok(None),
    }
}

/// The cut that the words behind `cut` say.
fn cut(
    alloc: Global,
    words: &[&[u8]],
    graph: &PbGraph,
    task: &Task,
    names: &GraphNames,
    atoms: &LentNames<'_>,
) -> Result<Option<TreeNode>, AllocError>
    requires { AreNamesOf graph.now names.now }
    ensures { IfOk result (λ found. MatchOption found
        ((node : Said) → SaysNode graph.now task.now atoms.now (codes "cut" ∷ texts words.now) node
        → ⊥)
        (SaysNode graph.now task.now atoms.now (codes "cut" ∷ texts words.now))) }
{
    let _atoms = atoms;
    let [number, list @ ..] = words else {
        return Ok(None);
    };
    let Some(need) = need(number, task) else {
        return Ok(None);
    };
    match pins_named(alloc, list, graph, names)? {
        Some(pins) => Ok(Some(TreeNode::Cut { need, pins })),
        None => Ok(None),
    }
}

/// The crowd that the words behind `crowd` say.
fn crowd(
    alloc: Global,
    words: &[&[u8]],
    graph: &PbGraph,
    task: &Task,
    names: &GraphNames,
    atoms: &LentNames<'_>,
) -> Result<Option<TreeNode>, AllocError>
    requires { AreNamesOf graph.now names.now }
    ensures { IfOk result (λ found. MatchOption found
        ((node : Said) → SaysNode graph.now task.now atoms.now (codes "crowd" ∷ texts words.now)
        node → ⊥)
        (SaysNode graph.now task.now atoms.now (codes "crowd" ∷ texts words.now))) }
{
    let _atoms = atoms;
    let Some((numbers, list)) = cut_at(words, b"/") else {
        return Ok(None);
    };
    let Some(needs) = needs(alloc, numbers, task)? else {
        return Ok(None);
    };
    match pins_named(alloc, list, graph, names)? {
        Some(pins) => Ok(Some(TreeNode::Crowd { needs, pins })),
        None => Ok(None),
    }
}

/// The loose node, where no words are behind `open`.
fn open(words: &[&[u8]], graph: &PbGraph, task: &Task, atoms: &LentNames<'_>) -> Option<TreeNode>
    ensures { MatchOption result
        ((node : Said) → SaysNode graph.now task.now atoms.now (codes "open" ∷ texts words.now)
        node → ⊥)
        (SaysNode graph.now task.now atoms.now (codes "open" ∷ texts words.now)) }
{
    let _graph = graph;
    let _task = task;
    let _atoms = atoms;
    if words.is_empty() {
        Some(TreeNode::Loose)
    } else {
        None
    }
}
