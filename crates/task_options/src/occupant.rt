ghost use Rattle.std.specs.Prelude.{◌≡◌, ◌<◌, ◌-◌, ◌^◌, ◌++◌, ℕ, List, filter, map, length, slice_get};
ghost use Rattle.task_types.specs.declared.decision.Occupant.TheVariants.{Atom, Wire};
ghost use Rattle.vtr_base.specs.Lists.{up_from};
ghost use Rattle.task_types.specs.Tasks.{HasHomesInOrder};
ghost use Rattle.task_types.specs.Options.{may_hold, occupants, wires_at};
ghost use Rattle.task_trail.specs.Decided.{IsFreeOccupant};
ghost use Rattle.task_options.specs.Choosing.{IsNextIn};

use pb_expand::{PbGraph, PbIx};
use task_trail::Trail;
use task_types::{Occupant, Task, wires_at};

/// What a leaf may be used for after what it was used for last.
pub(crate) fn next_occupant(
    graph: &PbGraph,
    task: &Task,
    trail: &Trail,
    leaf: PbIx,
    last: Occupant,
) -> Option<Occupant>
    requires inside { leaf.0 < length graph.now.instances }
    requires atoms { trail.now.atoms ≡ length task.now.atoms }
    requires few { length task.now.atoms < 2 ^ 32 }
    requires homes { HasHomesInOrder task.now }
    requires last { IsFreeOccupant trail.now last }
    ensures { IsNextIn (occupants graph.now task.now trail.now.made leaf.0) last result }
{
    match last {
        Occupant::Nobody => atom_or_wire(graph, leaf, next_atom(task, trail, leaf, 0)),
        Occupant::Atom(atom) => atom_or_wire(graph, leaf, next_atom(task, trail, leaf, atom + 1)),
        Occupant::Wire(input) => wire_from(graph, leaf, input as u64 + 1),
    }
}

/// The atom, or else passing the first input on.
fn atom_or_wire(graph: &PbGraph, leaf: PbIx, atom: Option<u32>) -> Option<Occupant>
    requires { leaf.0 < length graph.now.instances }
    ensures { (atoms : List ℕ) → atom ≡ slice_get atoms 0 → result ≡ slice_get
        (map (λ place. Atom place) atoms ++ map (λ i. Wire i) (up_from 0 (wires_at graph.now leaf.0)))
        0 }
{
    match atom {
        Some(atom) => Some(Occupant::Atom(atom)),
        None => wire_from(graph, leaf, 0),
    }
}

/// Passing that input on, where there is one.
fn wire_from(graph: &PbGraph, leaf: PbIx, input: u64) -> Option<Occupant>
    requires { leaf.0 < length graph.now.instances }
    ensures { result ≡ slice_get (map (λ i. Wire i)
        (up_from input (wires_at graph.now leaf.0 - input))) 0 }
{
    let wires = wires_at(graph, leaf);
    if input < wires as u64 {
        return Some(Occupant::Wire(input as u32));
    }
    None
}

/// The first atom without a home, from a place of the task on, that a leaf can hold.
fn next_atom(task: &Task, trail: &Trail, leaf: PbIx, from: u32) -> Option<u32>
    requires atoms { trail.now.atoms ≡ length task.now.atoms }
    requires few { length task.now.atoms < 2 ^ 32 }
    requires homes { HasHomesInOrder task.now }
    ensures { result ≡ slice_get (filter (may_hold task.now trail.now.made leaf.0)
        (up_from from (length task.now.atoms - from))) 0 }
{
    for atom in from..task.atoms.len() as u32 {
        if may_hold(task, trail, leaf, atom) {
            return Some(atom);
        }
    }
    None
}

/// Whether a leaf can hold an atom, which has no home yet.
pub(crate) fn may_hold(task: &Task, trail: &Trail, leaf: PbIx, atom: u32) -> bool
    requires atom { atom < trail.now.atoms }
    requires homes { HasHomesInOrder task.now }
    ensures { result ≡ may_hold task.now trail.now.made leaf.0 atom }
{
    task.can_hold(atom, leaf) && !trail.is_placed(atom)
}
