ghost use Rattle.std.specs.Prelude.{◌≡◌, ◌<◌, [], length};
ghost use Rattle.sparse_set.specs.Sets.{held_on};
ghost use Rattle.task_reach.specs.Valid.{IsTaskOf, IsNeedOf};
ghost use Rattle.first_try.specs.Paths.{IsOnPath};

use crate::decide::{decide, undo};
use net_types::Netlist;
use pb_expand::PbGraph;
use search_free::enters_law;
use search_homes::find_homeless;
use search_ways::reach;
use sparse_set::SparseSet;
use std::alloc::{AllocError, Global};
use task_reach::is_active;
use task_trail::Trail;
use task_types::{Decision, Need, Occupant, Task};

/// Decides a home of each atom, in turn: the first leaf with which the other atoms can still have
/// leaves of their own, and no need between atoms with homes is cut off. Whether each has one.
pub(crate) fn place_atoms(
    alloc: Global,
    net: &Netlist,
    graph: &PbGraph,
    task: &Task,
    trail: &mut Trail,
    reached: &mut SparseSet,
) -> Result<bool, AllocError>
    requires task { IsTaskOf graph.now task.now }
    requires on { IsOnPath graph.now task.now trail.old }
    requires reached { reached.old ≡ held_on [] (length graph.now.pins) }
    ensures on { IsOnPath graph.now task.now trail.new }
    ensures reached { reached.new ≡ reached.old }
{
    let mut from = Vec::new(alloc);
    for atom in 0..task.atoms.len() {
        let atom = atom as u32;
        if !place_atom(alloc, net, graph, task, trail, atom, reached, &mut from)? {
            return Ok(false);
        }
    }
    Ok(true)
}

/// The same of one atom.
fn place_atom(
    alloc: Global,
    net: &Netlist,
    graph: &PbGraph,
    task: &Task,
    trail: &mut Trail,
    atom: u32,
    reached: &mut SparseSet,
    from: &mut Vec<Option<u32>>,
) -> Result<bool, AllocError>
    requires task { IsTaskOf graph.now task.now }
    requires on { IsOnPath graph.now task.now trail.old }
    requires reached { reached.old ≡ held_on [] (length graph.now.pins) }
    ensures on { IsOnPath graph.now task.now trail.new }
    ensures reached { reached.new ≡ reached.old }
{
    let Some(leaves) = task.homes.get(atom as usize) else {
        return Ok(false);
    };
    for leaf in leaves.as_slice() {
        if decide(
            graph,
            task,
            trail,
            Decision::Occupant(*leaf, Occupant::Atom(atom)),
        ) {
            if is_good(alloc, net, graph, task, trail, atom, reached, from)? {
                return Ok(true);
            }
            undo(trail);
        }
    }
    Ok(false)
}

/// Whether each need of an atom whose reader has a home has a way, and all atoms can still have
/// leaves of their own.
fn is_good(
    alloc: Global,
    net: &Netlist,
    graph: &PbGraph,
    task: &Task,
    trail: &Trail,
    atom: u32,
    reached: &mut SparseSet,
    from: &mut Vec<Option<u32>>,
) -> Result<bool, AllocError>
    requires task { IsTaskOf graph.now task.now }
    requires on { IsOnPath graph.now task.now trail.now }
    requires reached { reached.old ≡ held_on [] (length graph.now.pins) }
    ensures reached { reached.new ≡ reached.old }
{
    for number in 0..task.needs.len() {
        let need = task.needs.as_slice()[number];
        if is_asked(task, trail, atom, need)
            && !has_way(net, graph, task, trail, need, reached, from)?
        {
            return Ok(false);
        }
    }
    Ok(find_homeless(alloc, graph, task, trail)?.is_none())
}

/// Whether a need is one of an atom, as its reader or as the maker of its net, and its reader has a
/// home.
fn is_asked(task: &Task, trail: &Trail, atom: u32, need: Need) -> bool
    requires atoms { trail.now.atoms ≡ length task.now.atoms }
{
    match need {
        Need::Input {
            atom: reader,
            net,
            ..
        }
        | Need::LutNet { atom: reader, net } => {
            reader == atom || (is_maker(task, net, atom) && is_placed(task, trail, reader))
        }
        Need::Leave { net } | Need::LeaveAt { net, .. } => is_maker(task, net, atom),
    }
}

/// Whether an atom has a home.
fn is_placed(task: &Task, trail: &Trail, atom: u32) -> bool
    requires atoms { trail.now.atoms ≡ length task.now.atoms }
{
    (atom as usize) < task.atoms.len() && trail.is_placed(atom)
}

/// Whether an atom drives a net.
fn is_maker(task: &Task, net: u32, atom: u32) -> bool {
    match task.nets.get(net as usize) {
        None => false,
        Some(of) => of.maker == Some(atom),
    }
}

/// Whether a need has a way, or hasn't to be met.
fn has_way(
    net: &Netlist,
    graph: &PbGraph,
    task: &Task,
    trail: &Trail,
    need: Need,
    reached: &mut SparseSet,
    from: &mut Vec<Option<u32>>,
) -> Result<bool, AllocError>
    requires task { IsTaskOf graph.now task.now }
    requires need { IsNeedOf graph.now task.now need }
    requires on { IsOnPath graph.now task.now trail.now }
    requires reached { reached.old ≡ held_on [] (length graph.now.pins) }
    ensures reached { reached.new ≡ reached.old }
{
    enters_law(graph);
    if !is_active(graph, task, trail, need) {
        return Ok(true);
    }
    from.clear();
    let place = reach(net, graph, task, trail, need, reached, from);
    reached.clear();
    Ok(place?.is_some())
}
