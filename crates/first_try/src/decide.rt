ghost use Rattle.std.specs.Prelude.{◌≡◌, ◌<◌, true, length};
ghost use Rattle.std.specs.Bool.{OnTrue};
ghost use Rattle.vtr_base.specs.Lists.{Has, up_from};
ghost use Rattle.pb_expand.specs.Graph.{Graph, into_from};
ghost use Rattle.prog_map.specs.Leaves.{kind_at};
ghost use Rattle.prog_map.specs.Order.{count_of};
ghost use Rattle.task_types.specs.declared.task.Task.{Task as TaskSaid};
ghost use Rattle.task_types.specs.Tasks.{HasHomesInOrder};
ghost use Rattle.task_types.specs.Options.{options, occupants, may_hold};
ghost use Rattle.task_options.specs.Choosing.{var_of, IsVarInside, or_none};
ghost use Rattle.task_reach.specs.Valid.{IsTaskOf};
ghost use Rattle.first_try.specs.Paths.{IsOnPath};

use pb_expand::{EdgeIx, PbGraph, PbIx, PbKind, PinIx};
use search_free::{free_law, path_law};
use task_options::{is_live_var, is_undecided};
use task_trail::Trail;
use task_types::{Decision, Occupant, Task, Var, wires_at};

/// Decides, where the decision is an option of a variable that is live and of which nothing is
/// decided yet; and whether it did.
pub(crate) fn decide(graph: &PbGraph, task: &Task, trail: &mut Trail, decision: Decision) -> bool
    requires task { IsTaskOf graph.now task.now }
    requires on { IsOnPath graph.now task.now trail.old }
    ensures on { IsOnPath graph.now task.now trail.new }
{
    let var = var_of(decision);
    if !is_live_var(graph, task, trail, var) {
        return false;
    }
    if !is_undecided(graph, trail, var) {
        return false;
    }
    if !is_option(graph, task, trail, decision) {
        return false;
    }
    free_law(graph);
    path_law(graph);
    trail.decide(decision);
    true
}

/// Takes the latest decision back.
pub(crate) fn undo(trail: &mut Trail)
    ensures { (g : Graph) (t : TaskSaid) → IsOnPath g t trail.old → IsOnPath g t trail.new }
{
    trail.take_back();
}

/// The variable that a decision decides.
fn var_of(decision: Decision) -> Var
    ensures { result ≡ var_of decision }
{
    match decision {
        Decision::Mode(pb, _) => Var::Mode(pb),
        Decision::Occupant(pb, _) => Var::Occupant(pb),
        Decision::Edge(pin, mode, _) => Var::Edge(pin, mode),
        Decision::Entry(pin, _) => Var::Entry(pin),
    }
}

/// Whether a decision is one of those that its variable has left.
fn is_option(graph: &PbGraph, task: &Task, trail: &Trail, decision: Decision) -> bool
    requires task { IsTaskOf graph.now task.now }
    requires atoms { trail.now.atoms ≡ length task.now.atoms }
    requires inside { IsVarInside graph.now (var_of decision) }
    ensures { OnTrue result (Has (options graph.now task.now trail.now.made (var_of decision))
        decision) }
{
    match decision {
        Decision::Mode(pb, mode) => is_mode(graph, pb, mode),
        Decision::Occupant(leaf, occupant) => is_occupant(graph, task, trail, leaf, occupant),
        Decision::Edge(pin, mode, edge) => is_edge(graph, pin, mode, edge),
        Decision::Entry(_, net) => is_net(task, net),
    }
}

/// Whether an instance has such a mode.
fn is_mode(graph: &PbGraph, pb: PbIx, mode: u32) -> bool
    requires inside { pb.0 < length graph.now.instances }
    ensures { OnTrue result (mode < count_of (kind_at graph.now pb.0)) }
{
    match graph.kind(pb) {
        PbKind::Leaf(_) => false,
        PbKind::Modes(count) => mode < count,
    }
}

/// Whether a leaf may be used so.
fn is_occupant(graph: &PbGraph, task: &Task, trail: &Trail, leaf: PbIx, occupant: Occupant) -> bool
    requires task { IsTaskOf graph.now task.now }
    requires atoms { trail.now.atoms ≡ length task.now.atoms }
    requires inside { leaf.0 < length graph.now.instances }
    ensures { OnTrue result (Has (occupants graph.now task.now trail.now.made leaf.0) occupant) }
{
    match occupant {
        Occupant::Nobody => true,
        Occupant::Atom(atom) => may_hold(task, trail, leaf, atom),
        Occupant::Wire(input) => input < wires_at(graph, leaf),
    }
}

/// Whether that is an atom without a home that the leaf can hold.
fn may_hold(task: &Task, trail: &Trail, leaf: PbIx, atom: u32) -> bool
    requires task { HasHomesInOrder task.now }
    requires atoms { trail.now.atoms ≡ length task.now.atoms }
    ensures { OnTrue result ((atom < length task.now.atoms)
        × (may_hold task.now trail.now.made leaf.0 atom ≡ true)) }
{
    if atom as usize >= task.atoms.len() {
        return false;
    }
    task.can_hold(atom, leaf) && !trail.is_placed(atom)
}

/// Whether a pin may take that edge, or none.
fn is_edge(graph: &PbGraph, pin: PinIx, mode: u32, edge: Option<EdgeIx>) -> bool
    requires inside { pin.0 < length graph.now.pins }
    ensures { OnTrue result (Has (or_none (into_from 0 graph.now.edges pin.0 mode)) edge) }
{
    match edge {
        None => true,
        Some(edge) => has_edge(graph.edges_into(pin, mode), edge),
    }
}

/// Whether an edge is among these.
fn has_edge(edges: &[EdgeIx], edge: EdgeIx) -> bool
    ensures { OnTrue result (Has edges.now edge) }
{
    for one in edges {
        if *one == edge {
            return true;
        }
    }
    false
}

/// Whether that is a net of the task, or none.
fn is_net(task: &Task, net: Option<u32>) -> bool
    ensures { OnTrue result (Has (or_none (up_from 0 (length task.now.nets))) net) }
{
    match net {
        None => true,
        Some(net) => (net as usize) < task.nets.len(),
    }
}
