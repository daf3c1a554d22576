ghost use Rattle.std.specs.Prelude.{◌≡◌, ◌<◌, ◌^◌, filter, length};
ghost use Rattle.vtr_base.specs.Lists.{up_from};
ghost use Rattle.prog_map.specs.Leaves.{kind_at};
ghost use Rattle.prog_map.specs.Order.{count_of};
ghost use Rattle.task_types.specs.Tasks.{HasHomesInOrder};
ghost use Rattle.task_types.specs.Options.{may_hold, options};
ghost use Rattle.task_options.specs.Choosing.{IsVarInside};

use crate::occupant::may_hold;
use pb_expand::{PbGraph, PbIx, PbKind};
use task_trail::Trail;
use task_types::{Task, Var, wires_at};

/// How many options a variable has left. For the use of a leaf it goes over the atoms of the task.
pub fn option_count(graph: &PbGraph, task: &Task, trail: &Trail, var: Var) -> u64
    requires inside { IsVarInside graph.now var }
    requires atoms { trail.now.atoms ≡ length task.now.atoms }
    requires few_atoms { length task.now.atoms < 2 ^ 32 }
    requires few_nets { length task.now.nets < 2 ^ 32 }
    requires homes { HasHomesInOrder task.now }
    ensures { result ≡ length (options graph.now task.now trail.now.made var) }
{
    match var {
        Var::Mode(pb) => mode_count(graph, pb) as u64,
        Var::Occupant(pb) => 1 + atoms_left(task, trail, pb) as u64 + wires_at(graph, pb) as u64,
        Var::Edge(pin, mode) => 1 + graph.edges_into(pin, mode).len() as u64,
        Var::Entry(_) => 1 + task.nets.len() as u64,
    }
}

/// How many modes an instance has; a leaf has none.
pub(crate) fn mode_count(graph: &PbGraph, pb: PbIx) -> u32
    requires { pb.0 < length graph.now.instances }
    ensures { result ≡ count_of (kind_at graph.now pb.0) }
{
    match graph.kind(pb) {
        PbKind::Leaf(_) => 0,
        PbKind::Modes(count) => count,
    }
}

/// How many atoms without a home a leaf can hold.
fn atoms_left(task: &Task, trail: &Trail, leaf: PbIx) -> u32
    requires atoms { trail.now.atoms ≡ length task.now.atoms }
    requires few { length task.now.atoms < 2 ^ 32 }
    requires homes { HasHomesInOrder task.now }
    ensures { result ≡ length (filter (may_hold task.now trail.now.made leaf.0)
        (up_from 0 (length task.now.atoms))) }
{
    let mut count = 0;
    for atom in 0..task.atoms.len() as u32 {
        if may_hold(task, trail, leaf, atom) {
            count += 1;
        }
    }
    count
}
