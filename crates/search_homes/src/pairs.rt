ghost use Rattle.std.specs.Prelude.{◌≡◌, ◌<◌, IfOk, OnOk, [], length, slice_index_or};
ghost use Rattle.task_reach.specs.Valid.{IsTaskOf};
ghost use Rattle.search_homes.specs.Pairs.{AreOpenPairs, AddsOpen};

use pb_expand::{PbGraph, PbIx};
use std::alloc::{AllocError, Global};
use task_open::is_open_to;
use task_trail::Trail;
use task_types::Task;

/// Each atom with each leaf that is open to it. It goes over the leaves that are listed for the
/// atoms.
pub(crate) fn open_pairs(
    alloc: Global,
    graph: &PbGraph,
    task: &Task,
    trail: &Trail,
) -> Result<Vec<(u32, u32)>, AllocError>
    requires task { IsTaskOf graph.now task.now }
    requires atoms { trail.now.atoms ≡ length task.now.atoms }
    requires instances { trail.now.instances ≡ length graph.now.instances }
    ensures { IfOk result (λ pairs. AreOpenPairs graph.now task.now trail.now.made
        (length task.now.atoms) pairs.items) }
{
    let mut pairs = Vec::new(alloc);
    for place in 0..task.atoms.len() {
        push_open(graph, task, trail, place as u32, &mut pairs)?;
    }
    Ok(pairs)
}

/// Adds an atom with each leaf that is open to it.
fn push_open(
    graph: &PbGraph,
    task: &Task,
    trail: &Trail,
    place: u32,
    pairs: &mut Vec<(u32, u32)>,
) -> Result<(), AllocError>
    requires task { IsTaskOf graph.now task.now }
    requires atom { place < trail.now.atoms }
    requires instances { trail.now.instances ≡ length graph.now.instances }
    ensures { OnOk result (AddsOpen graph.now task.now trail.now.made place pairs.old.items
        pairs.new.items) }
{
    for leaf in homes_of(task, place) {
        if is_open_to(graph, task, trail, place, *leaf) {
            pairs.push((place, leaf.0))?;
        }
    }
    Ok(())
}

/// The leaves that are listed for an atom.
fn homes_of(task: &Task, place: u32) -> &[PbIx]
    ensures { result.now ≡ slice_index_or task.now.homes place [] }
{
    match task.homes.get(place as usize) {
        None => &[],
        Some(leaves) => leaves.as_slice(),
    }
}
