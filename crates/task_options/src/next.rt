ghost use Rattle.std.specs.Prelude.{◌≡◌, ◌<◌, ◌^◌, ℕ, List, Some, length, slice_get};
ghost use Rattle.std.specs.Option.{option_map};
ghost use Rattle.vtr_base.specs.Lists.{up_from};
ghost use Rattle.pb_expand.specs.declared.number.EdgeIx.{EdgeIx as EdgeSaid};
ghost use Rattle.task_types.specs.declared.task.Task.{Task as TaskSaid};
ghost use Rattle.task_types.specs.declared.decision.Decision.{Decision as DecisionSaid};
ghost use Rattle.task_types.specs.Tasks.{HasHomesInOrder};
ghost use Rattle.task_types.specs.Options.{options};
ghost use Rattle.task_trail.specs.Decided.{IsFree};
ghost use Rattle.task_options.specs.Choosing.{IsVarInside, IsNextIn, Ascend, AreHalves, var_of, or_none};

use crate::count::mode_count;
use crate::occupant::next_occupant;
use pb_expand::{EdgeIx, PbGraph, PinIx};
use task_trail::Trail;
use task_types::{Decision, Occupant, Task, Var};

/// The first option of a variable; nothing where it has none.
pub fn first_option(graph: &PbGraph, var: Var) -> Option<Decision>
    requires { IsVarInside graph.now var }
    ensures { (t : TaskSaid) (made : List DecisionSaid) → result ≡ slice_get
        (options graph.now t made var) 0 }
{
    match var {
        Var::Mode(pb) => {
            if mode_count(graph, pb) == 0 {
                return None;
            }
            Some(Decision::Mode(pb, 0))
        }
        Var::Occupant(pb) => Some(Decision::Occupant(pb, Occupant::Nobody)),
        Var::Edge(pin, mode) => Some(Decision::Edge(pin, mode, None)),
        Var::Entry(pin) => Some(Decision::Entry(pin, None)),
    }
}

/// The option of the same variable that comes after the one that was decided last, where that was
/// taken back; nothing after the last one. Over all options of a variable this takes a step for
/// each, and for the use of a leaf one for each atom.
pub fn next_option(graph: &PbGraph, task: &Task, trail: &Trail, last: Decision) -> Option<Decision>
    requires instances { trail.now.instances ≡ length graph.now.instances }
    requires pins { trail.now.pins ≡ length graph.now.pins }
    requires atoms { trail.now.atoms ≡ length task.now.atoms }
    requires few_atoms { length task.now.atoms < 2 ^ 32 }
    requires few_nets { length task.now.nets < 2 ^ 32 }
    requires homes { HasHomesInOrder task.now }
    requires free { IsFree trail.now last }
    ensures { IsNextIn (options graph.now task.now trail.now.made (var_of last)) last result }
{
    match last {
        Decision::Mode(pb, mode) => {
            let next = next_below(mode, mode_count(graph, pb));
            next.map(|mode| Decision::Mode(pb, mode))
        }
        Decision::Occupant(leaf, occupant) => {
            let next = next_occupant(graph, task, trail, leaf, occupant);
            next.map(|occupant| Decision::Occupant(leaf, occupant))
        }
        Decision::Edge(pin, mode, edge) => {
            graph.lists_ends();
            let next = next_edge(graph.edges_into(pin, mode), edge);
            next.map(|edge| Decision::Edge(pin, mode, Some(edge)))
        }
        Decision::Entry(pin, net) => {
            let next = next_net(task.nets.len() as u32, net);
            next.map(|net| Decision::Entry(pin, Some(net)))
        }
    }
}

/// The number after another, where it is below a limit.
fn next_below(last: u32, limit: u32) -> Option<u32>
    ensures { IsNextIn (up_from 0 limit) last result }
{
    if last as u64 + 1 < limit as u64 {
        return Some(last + 1);
    }
    None
}

/// The net after the one that came in last, or the first one after none.
fn next_net(nets: u32, last: Option<u32>) -> Option<u32>
    ensures { IsNextIn (or_none (up_from 0 nets)) last (option_map (λ (net : ℕ). Some net) result) }
{
    match last {
        Some(net) => next_below(net, nets),
        None if nets > 0 => Some(0),
        None => None,
    }
}

/// The edge after the one that was taken last, or the first one after none.
fn next_edge(edges: &[EdgeIx], last: Option<EdgeIx>) -> Option<EdgeIx>
    requires { Ascend edges.now }
    ensures { IsNextIn (or_none edges.now) last (option_map (λ (edge : EdgeSaid). Some edge) result) }
{
    match last {
        Some(edge) => edge_at(edges, place_above(edges, edge.0)),
        None => edge_at(edges, 0),
    }
}

/// What stands at a place among some edges.
fn edge_at(edges: &[EdgeIx], place: usize) -> Option<EdgeIx>
    ensures { result ≡ slice_get edges.now place }
{
    edges.get(place).copied()
}

/// The place of the first edge above a number. It takes as many steps as halve the list.
fn place_above(edges: &[EdgeIx], number: u32) -> usize
    requires { Ascend edges.now }
    ensures { AreHalves edges.now number result result }
{
    let mut low = 0;
    let mut high = edges.len();
    while low < high {
        let middle = low + (high - low) / 2;
        if edges[middle].0 <= number {
            low = middle + 1;
        } else {
            high = middle;
        }
    }
    low
}
