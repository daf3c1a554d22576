ghost use Rattle.std.specs.Prelude.{◌∷◌, [], MatchOption, codes};
ghost use Rattle.prog_text.specs.Table.{AreNamesOf};
ghost use Rattle.task_types.specs.declared.tree.Var.{Var as Said};
ghost use Rattle.tree_lines.specs.Words.{texts};
ghost use Rattle.tree_lines.specs.Variables.{SaysVar};

use crate::modes::{is_root_input, mode_into};
use crate::words::is_same;
use name_laws::names_are_one;
use pb_expand::PbGraph;
use prog_map::is_leaf;
use prog_text::GraphNames;
use task_types::{Entries, Task, Var};

/// The variable that these words name: `mode INST`, `occupant INST`, `edge PIN MODE` or
/// `entry PIN`.
pub(crate) fn variable(
    words: &[&[u8]],
    graph: &PbGraph,
    task: &Task,
    names: &GraphNames,
) -> Option<Var>
    requires { AreNamesOf graph.now names.now }
    ensures { MatchOption result ((v : Said) → SaysVar graph.now task.now (texts words.now) v → ⊥)
        (SaysVar graph.now task.now (texts words.now)) }
{
    match words {
        [keyword, name] => with_one_name(keyword, name, graph, task, names),
        [keyword, pin, mode] => edge(keyword, pin, mode, graph, task, names),
        _ => None,
    }
}

/// `mode INST`, `occupant INST` or `entry PIN`.
fn with_one_name(
    keyword: &[u8],
    name: &[u8],
    graph: &PbGraph,
    task: &Task,
    names: &GraphNames,
) -> Option<Var>
    requires { AreNamesOf graph.now names.now }
    ensures { MatchOption result
        ((v : Said) → SaysVar graph.now task.now (keyword.now ∷ name.now ∷ []) v → ⊥)
        (SaysVar graph.now task.now (keyword.now ∷ name.now ∷ [])) }
{
    if is_same(keyword, b"mode") {
        return mode(name, graph, task, names);
    }
    if is_same(keyword, b"occupant") {
        return occupant(name, graph, task, names);
    }
    if is_same(keyword, b"entry") {
        return entry(name, graph, task, names);
    }
    None
}

/// The mode of the instance of this name, where that is no leaf.
fn mode(name: &[u8], graph: &PbGraph, task: &Task, names: &GraphNames) -> Option<Var>
    requires { AreNamesOf graph.now names.now }
    ensures { MatchOption result
        ((v : Said) → SaysVar graph.now task.now (codes "mode" ∷ name.now ∷ []) v → ⊥)
        (SaysVar graph.now task.now (codes "mode" ∷ name.now ∷ [])) }
{
    names_are_one(graph);
    let _task = task;
    let pb = names.instance(graph, name)?;
    if is_leaf(graph, pb) {
        return None;
    }
    Some(Var::Mode(pb))
}

/// What the leaf of this name is used for.
fn occupant(name: &[u8], graph: &PbGraph, task: &Task, names: &GraphNames) -> Option<Var>
    requires { AreNamesOf graph.now names.now }
    ensures { MatchOption result
        ((v : Said) → SaysVar graph.now task.now (codes "occupant" ∷ name.now ∷ []) v → ⊥)
        (SaysVar graph.now task.now (codes "occupant" ∷ name.now ∷ [])) }
{
    names_are_one(graph);
    let _task = task;
    let pb = names.instance(graph, name)?;
    if !is_leaf(graph, pb) {
        return None;
    }
    Some(Var::Occupant(pb))
}

/// The net that comes in at the pin of this name, where that is an input or clock pin of the block
/// and the task leaves open what comes in.
fn entry(name: &[u8], graph: &PbGraph, task: &Task, names: &GraphNames) -> Option<Var>
    requires { AreNamesOf graph.now names.now }
    ensures { MatchOption result
        ((v : Said) → SaysVar graph.now task.now (codes "entry" ∷ name.now ∷ []) v → ⊥)
        (SaysVar graph.now task.now (codes "entry" ∷ name.now ∷ [])) }
{
    names_are_one(graph);
    let Entries::Free = &task.entries else {
        return None;
    };
    let pin = names.pin(graph, name)?;
    if !is_root_input(graph, pin) {
        return None;
    }
    Some(Var::Entry(pin))
}

/// `edge PIN MODE`: the edge that the pin takes in the mode of this name.
fn edge(
    keyword: &[u8],
    pin: &[u8],
    mode: &[u8],
    graph: &PbGraph,
    task: &Task,
    names: &GraphNames,
) -> Option<Var>
    requires { AreNamesOf graph.now names.now }
    ensures { MatchOption result
        ((v : Said) → SaysVar graph.now task.now (keyword.now ∷ pin.now ∷ mode.now ∷ []) v → ⊥)
        (SaysVar graph.now task.now (keyword.now ∷ pin.now ∷ mode.now ∷ [])) }
{
    names_are_one(graph);
    let _task = task;
    if !is_same(keyword, b"edge") {
        return None;
    }
    let pin = names.pin(graph, pin)?;
    let mode = mode_into(graph, names, pin, mode)?;
    Some(Var::Edge(pin, mode))
}
