ghost use Rattle.std.specs.Prelude.{◌≡◌, ◌<◌, ◌+◌, IfOk, length};
ghost use Rattle.search_free.specs.Held.{AreHeld};
ghost use Rattle.search_real.specs.Placed.{AreAtHome, AreHomes, HasHomesBefore};

use pb_expand::{PbGraph, PbIx};
use sqlite_items::Items;
use std::alloc::{AllocError, Global};
use task_trail::Trail;
use task_types::{Occupant, Task};

/// For each atom its home.
pub(crate) fn homes_of(
    alloc: Global,
    graph: &PbGraph,
    task: &Task,
    trail: &Trail,
) -> Result<Items<PbIx>, AllocError>
    requires instances { trail.now.instances ≡ length graph.now.instances }
    requires held { AreHeld graph.now task.now trail.now.made }
    requires homes { AreAtHome task.now trail.now.made }
    ensures { IfOk result (AreHomes task.now trail.now.made) }
{
    let mut homes = vec![in alloc; PbIx(0); task.atoms.len()]?;
    for leaf in 0..graph.pbs() {
        put_home(graph, task, trail, PbIx(leaf), homes.as_mut_slice());
    }
    Ok(Items::from_vec(homes))
}

/// Notes a leaf as the home of its atom, where it is one.
fn put_home(graph: &PbGraph, task: &Task, trail: &Trail, leaf: PbIx, homes: &mut [PbIx])
    requires inside { leaf.0 < trail.now.instances }
    requires held { AreHeld graph.now task.now trail.now.made }
    requires before { HasHomesBefore task.now trail.now.made homes.old leaf.0 }
    ensures { HasHomesBefore task.now trail.now.made homes.new (leaf.0 + 1) }
{
    let _ = graph;
    let _ = task;
    if let Some(Occupant::Atom(place)) = trail.occupant_in(leaf) {
        homes[place as usize] = leaf;
    }
}
