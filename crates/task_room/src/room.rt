ghost use Rattle.std.specs.Prelude.{◌≡◌, ◌<◌, ◌≤◌, ◌+◌, ◌++◌, ◌^◌, ℕ, List, [], MatchOption, false, filter, length, slice_get};
ghost use Rattle.std.specs.Option.{option_map_or};
ghost use Rattle.vtr_base.specs.Lists.{up_from};
ghost use Rattle.pb_expand.specs.Graph.{Graph};
ghost use Rattle.prog_map.specs.Leaves.{kind_at};
ghost use Rattle.prog_map.specs.Order.{starts_at};
ghost use Rattle.task_types.specs.declared.task.Task.{Task};
ghost use Rattle.task_types.specs.declared.tree.Var.{Var};
ghost use Rattle.task_types.specs.declared.tree.Var.TheVariants as var;
ghost use Rattle.task_types.specs.Tasks.{HasHomesInOrder};
ghost use Rattle.task_types.specs.Options.{may_hold};
ghost use Rattle.task_room.specs.Room.{IsRoom, IsTooLarge, choices_of};
ghost use Rattle.task_room.specs.Listed.{IsTallyOf, var_at, edge_var, entry_var, instance_vars, edge_vars, entry_vars, entries_of, is_entry, leads_in};

use crate::tally::{Tally, times};
use arch_types::{Port, Side};
use pb_expand::{EdgeIx, PbGraph, PbIx, PbKind, PinAt, PinIx};
use task_types::{Entries, Task, wires_at};

/// The number of a task's variables times the product of their numbers of options, where that is
/// below 2^64. Once the product is too large, the atoms that each leaf can hold are no longer
/// counted.
pub fn tree_room(graph: &PbGraph, task: &Task) -> Option<u64>
    requires homes { HasHomesInOrder task.now }
    requires atoms { length task.now.atoms < 2 ^ 32 }
    requires nets { length task.now.nets < 2 ^ 32 }
    ensures { MatchOption result (IsTooLarge graph.now task.now) (IsRoom graph.now task.now) }
{
    graph.law();
    graph.keeps();
    graph.lists_ends();
    let instances = tally_instances(graph, task);
    let edges = tally_edges(graph, task, instances);
    let all = tally_entries(graph, task, edges);
    times(all.product, all.count)
}

/// A task has one room, for callers' proofs. It does nothing.
pub fn one_room(task: &Task)
    ensures { (g : Graph) (room other : ℕ) → IsRoom g task.now room → IsRoom g task.now other
        → room ≡ other }
{
    let _task = task;
}

/// The tally of the modes and the uses of the instances.
fn tally_instances(graph: &PbGraph, task: &Task) -> Tally
    requires homes { HasHomesInOrder task.now }
    requires atoms { length task.now.atoms < 2 ^ 32 }
    ensures count { result.count ≤ 1048576 }
    ensures tally { IsTallyOf graph.now task.now result
        (instance_vars graph.now (length graph.now.instances)) }
{
    graph.law();
    let mut tally = Tally::empty();
    for pb in 0..graph.pbs() {
        tally = with_instance(tally, graph, task, PbIx(pb));
    }
    tally
}

/// One instance more.
fn with_instance(tally: Tally, graph: &PbGraph, task: &Task, pb: PbIx) -> Tally
    requires inside { pb.0 < length graph.now.instances }
    requires homes { HasHomesInOrder task.now }
    requires atoms { length task.now.atoms < 2 ^ 32 }
    requires count { tally.count + 1 < 2 ^ 64 }
    ensures count { result.count ≡ tally.count + 1 }
    ensures tally { (vars : List Var) → IsTallyOf graph.now task.now tally vars → IsTallyOf
        graph.now task.now result
        (var_at pb.0 (kind_at graph.now pb.0) ++ vars) }
{
    match graph.kind(pb) {
        PbKind::Modes(count) => tally.and(count as u64),
        PbKind::Leaf(_) if tally.product.is_none() => tally.and_some(),
        PbKind::Leaf(_) => tally.and(leaf_options(graph, task, pb)),
    }
}

/// How many options the use of a leaf has.
fn leaf_options(graph: &PbGraph, task: &Task, leaf: PbIx) -> u64
    requires inside { leaf.0 < length graph.now.instances }
    requires homes { HasHomesInOrder task.now }
    requires atoms { length task.now.atoms < 2 ^ 32 }
    ensures { result ≡ choices_of graph.now task.now (var.Occupant leaf) }
{
    1 + atoms_held(task, leaf) as u64 + wires_at(graph, leaf) as u64
}

/// How many atoms a leaf can hold.
fn atoms_held(task: &Task, leaf: PbIx) -> u32
    requires homes { HasHomesInOrder task.now }
    requires atoms { length task.now.atoms < 2 ^ 32 }
    ensures { result ≡ length (filter (may_hold task.now [] leaf.0)
        (up_from 0 (length task.now.atoms))) }
{
    let mut count = 0;
    for atom in 0..task.atoms.len() as u32 {
        if task.can_hold(atom, leaf) {
            count += 1;
        }
    }
    count
}

/// The tally with the edges that pins can take.
fn tally_edges(graph: &PbGraph, task: &Task, instances: Tally) -> Tally
    requires count { instances.count ≤ 1048576 }
    ensures count { result.count ≤ 5242880 }
    ensures tally { (vars : List Var) → IsTallyOf graph.now task.now instances vars → IsTallyOf
        graph.now task.now result
        (edge_vars graph.now (length graph.now.edges) ++ vars) }
{
    graph.law();
    let mut tally = instances;
    for edge in 0..graph.edges() {
        tally = with_edge(tally, graph, EdgeIx(edge));
    }
    tally
}

/// One edge more: where it is the first into its pin in its mode, the pin is a variable there.
fn with_edge(tally: Tally, graph: &PbGraph, edge: EdgeIx) -> Tally
    requires inside { edge.0 < length graph.now.edges }
    requires count { tally.count + 1 < 2 ^ 64 }
    ensures count { result.count ≤ tally.count + 1 }
    ensures tally { (t : Task) (vars : List Var) → IsTallyOf graph.now t tally vars → IsTallyOf
        graph.now t result
        (edge_var graph.now edge.0 (slice_get graph.now.edges edge.0) ++ vars) }
{
    let here = graph.edge(edge);
    let into = graph.edges_into(here.dst, here.mode);
    if begins_with(into, edge) {
        return tally.and(1 + into.len() as u64);
    }
    tally
}

/// Whether the first of some edges is that one.
fn begins_with(edges: &[EdgeIx], edge: EdgeIx) -> bool
    ensures { result ≡ starts_at edge.0 edges.now }
{
    match edges {
        [] => false,
        [first, ..] => first.0 == edge.0,
    }
}

/// The tally with the nets that can come in, where the task leaves that open.
fn tally_entries(graph: &PbGraph, task: &Task, edges: Tally) -> Tally
    requires nets { length task.now.nets < 2 ^ 32 }
    requires count { edges.count ≤ 5242880 }
    ensures count { result.count ≤ 6291456 }
    ensures tally { (vars : List Var) → IsTallyOf graph.now task.now edges vars → IsTallyOf
        graph.now task.now result
        (entries_of graph.now task.now.entries ++ vars) }
{
    match &task.entries {
        Entries::Fixed(_) => edges,
        Entries::Free => tally_pins(graph, task, edges),
    }
}

/// The tally with each input or clock pin of the block.
fn tally_pins(graph: &PbGraph, task: &Task, edges: Tally) -> Tally
    requires nets { length task.now.nets < 2 ^ 32 }
    requires count { edges.count ≤ 5242880 }
    ensures count { result.count ≤ 6291456 }
    ensures tally { (vars : List Var) → IsTallyOf graph.now task.now edges vars → IsTallyOf
        graph.now task.now result
        (entry_vars graph.now (length graph.now.pins) ++ vars) }
{
    graph.law();
    let mut tally = edges;
    for pin in 0..graph.pins() {
        tally = with_pin(tally, graph, task, PinIx(pin));
    }
    tally
}

/// One pin more: an input or clock pin of the block is a variable.
fn with_pin(tally: Tally, graph: &PbGraph, task: &Task, pin: PinIx) -> Tally
    requires inside { pin.0 < length graph.now.pins }
    requires nets { length task.now.nets < 2 ^ 32 }
    requires count { tally.count + 1 < 2 ^ 64 }
    ensures count { result.count ≤ tally.count + 1 }
    ensures tally { (vars : List Var) → IsTallyOf graph.now task.now tally vars → IsTallyOf
        graph.now task.now result
        (entry_var graph.now pin.0 (slice_get graph.now.pins pin.0) ++ vars) }
{
    if is_entry(graph, graph.pin_at(pin)) {
        return tally.and(1 + task.nets.len() as u64);
    }
    tally
}

/// Whether a pin is an input or clock pin of the block.
fn is_entry(graph: &PbGraph, pin: PinAt) -> bool
    requires { pin.pb.0 < length graph.now.instances }
    ensures { result ≡ is_entry graph.now pin }
{
    if pin.pb.0 != 0 {
        return false;
    }
    leads_in(graph.ports(pin.pb), pin.port)
}

/// Whether the port at that place is there, and is an input or clock port.
fn leads_in(ports: &[Port], port: u32) -> bool
    ensures { result ≡ option_map_or (λ p. leads_in p.side) (slice_get ports.now port) false }
{
    match ports.get(port as usize) {
        None => false,
        Some(port) => port.side != Side::Output,
    }
}
