ghost use Rattle.std.specs.Prelude.{◌≡◌, ◌<◌, ◌↔◌, ◌⊎◌, false, Some, None, IsTrue, length};
ghost use Rattle.task_types.specs.declared.decision.Occupant.TheVariants.{Atom};
ghost use Rattle.task_types.specs.Tasks.{HasHomesInOrder};
ghost use Rattle.task_types.specs.Decisions.{occupant_in, is_placed};
ghost use Rattle.task_types.specs.Open.{IsOpenTo};

use pb_expand::{PbGraph, PbIx};
use task_trail::{Trail, is_open};
use task_types::{Occupant, Task};

/// Whether a leaf is open to the atom at a place of the task: it can hold it, no decision excludes
/// the leaf, and the atom is at home there or may still be.
pub fn is_open_to(graph: &PbGraph, task: &Task, trail: &Trail, place: u32, leaf: PbIx) -> bool
    requires leaf { leaf.0 < length graph.now.instances }
    requires atom { place < trail.now.atoms }
    requires same { trail.now.instances ≡ length graph.now.instances }
    requires homes { HasHomesInOrder task.now }
    ensures { IsTrue result ↔ IsOpenTo graph.now task.now trail.now.made place leaf.0 }
{
    if !is_free_for(trail, place, leaf) {
        return false;
    }
    if !task.can_hold(place, leaf) {
        return false;
    }
    is_open(graph, trail, leaf)
}

/// Whether an atom is at home in a leaf, or has no home while nothing is decided of the leaf.
fn is_free_for(trail: &Trail, place: u32, leaf: PbIx) -> bool
    requires leaf { leaf.0 < trail.now.instances }
    requires atom { place < trail.now.atoms }
    ensures { IsTrue result ↔ ((occupant_in trail.now.made leaf.0 ≡ Some (Atom place))
        ⊎ ((is_placed trail.now.made place ≡ false) × (occupant_in trail.now.made leaf.0 ≡ None))) }
{
    match trail.occupant_in(leaf) {
        None => !trail.is_placed(place),
        Some(Occupant::Atom(atom)) => atom == place,
        Some(Occupant::Nobody) => false,
        Some(Occupant::Wire(_)) => false,
    }
}
