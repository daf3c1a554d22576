ghost use Rattle.std.specs.Prelude.{◌≡◌, ◌<◌, [], IfSome, length};
ghost use Rattle.sparse_set.specs.Sets.{held_on};
ghost use Rattle.task_reach.specs.Valid.{IsTaskOf, IsNeedOf};
ghost use Rattle.first_try.specs.Paths.{IsOnPath};

use crate::decide::decide;
use net_types::Netlist;
use pb_expand::{EdgeIx, PbGraph, PinIx};
use search_free::enters_law;
use search_ways::reach;
use sparse_set::SparseSet;
use std::alloc::{AllocError, Global};
use task_open::may_take;
use task_reach::is_active;
use task_trail::Trail;
use task_types::{Decision, Need, Occupant, Task};

/// Decides a way of each active need, in turn, where one is left.
pub(crate) fn route_needs(
    alloc: Global,
    net: &Netlist,
    graph: &PbGraph,
    task: &Task,
    trail: &mut Trail,
    reached: &mut SparseSet,
) -> Result<(), AllocError>
    requires task { IsTaskOf graph.now task.now }
    requires on { IsOnPath graph.now task.now trail.old }
    requires reached { reached.old ≡ held_on [] (length graph.now.pins) }
    ensures on { IsOnPath graph.now task.now trail.new }
    ensures reached { reached.new ≡ reached.old }
{
    let mut from = Vec::new(alloc);
    for number in 0..task.needs.len() {
        let need = task.needs.as_slice()[number];
        route_need(net, graph, task, trail, need, reached, &mut from)?;
    }
    Ok(())
}

/// The same of one need.
fn route_need(
    net: &Netlist,
    graph: &PbGraph,
    task: &Task,
    trail: &mut Trail,
    need: Need,
    reached: &mut SparseSet,
    from: &mut Vec<Option<u32>>,
) -> Result<(), AllocError>
    requires task { IsTaskOf graph.now task.now }
    requires need { IsNeedOf graph.now task.now need }
    requires on { IsOnPath graph.now task.now trail.old }
    requires reached { reached.old ≡ held_on [] (length graph.now.pins) }
    ensures on { IsOnPath graph.now task.now trail.new }
    ensures reached { reached.new ≡ reached.old }
{
    enters_law(graph);
    if !is_active(graph, task, trail, need) {
        return Ok(());
    }
    from.clear();
    let place = reach(net, graph, task, trail, need, reached, from);
    if let Ok(Some(place)) = place {
        take_way(
            graph,
            task,
            trail,
            net_of(need),
            reached.as_slice(),
            from,
            place,
        );
    }
    reached.clear();
    place?;
    Ok(())
}

/// The net of a need.
fn net_of(need: Need) -> u32 {
    match need {
        Need::Input { net, .. } | Need::LutNet { net, .. } => net,
        Need::Leave { net } | Need::LeaveAt { net, .. } => net,
    }
}

/// Decides the way that was found to a place: the entry of the net, where it comes in there, and
/// each step from there on.
fn take_way(
    graph: &PbGraph,
    task: &Task,
    trail: &mut Trail,
    net: u32,
    pins: &[u32],
    from: &[Option<u32>],
    place: u32,
)
    requires task { IsTaskOf graph.now task.now }
    requires on { IsOnPath graph.now task.now trail.old }
    ensures on { IsOnPath graph.now task.now trail.new }
{
    let mut at = place as usize;
    if let Some(pin) = pins.get(at) {
        decide(graph, task, trail, Decision::Entry(PinIx(*pin), Some(net)));
    }
    while let Some(before) = place_before(from, at) {
        if let (Some(pin), Some(source)) = (pins.get(before), pins.get(at)) {
            take_step(graph, task, trail, PinIx(*pin), PinIx(*source));
        }
        at = before;
    }
}

/// The place from which one was reached, which is smaller.
fn place_before(from: &[Option<u32>], at: usize) -> Option<usize>
    ensures { IfSome result (λ before. before < at) }
{
    let before = (*from.get(at)?)? as usize;
    if before < at {
        return Some(before);
    }
    None
}

/// Decides that a pin has its net from another one: by an edge, or through a LUT.
fn take_step(graph: &PbGraph, task: &Task, trail: &mut Trail, pin: PinIx, source: PinIx)
    requires task { IsTaskOf graph.now task.now }
    requires on { IsOnPath graph.now task.now trail.old }
    ensures on { IsOnPath graph.now task.now trail.new }
{
    if pin.0 >= graph.pins() || source.0 >= graph.pins() {
        return;
    }
    let decision = match edge_from(graph, trail, pin, source) {
        Some(edge) => Decision::Edge(pin, graph.edge(edge).mode, Some(edge)),
        None => {
            let input = graph.pin_at(source).bit;
            Decision::Occupant(graph.pin_at(pin).pb, Occupant::Wire(input))
        }
    };
    decide(graph, task, trail, decision);
}

/// The first edge between two pins that may be taken.
fn edge_from(graph: &PbGraph, trail: &Trail, pin: PinIx, source: PinIx) -> Option<EdgeIx>
    requires inside { pin.0 < length graph.now.pins }
    requires instances { trail.now.instances ≡ length graph.now.instances }
    requires pins { trail.now.pins ≡ length graph.now.pins }
    ensures { IfSome result (λ edge. edge.0 < length graph.now.edges) }
{
    graph.law();
    for edge in graph.edges_into_pin(pin) {
        if graph.edge(*edge).src == source && may_take(graph, trail, *edge) {
            return Some(*edge);
        }
    }
    None
}
