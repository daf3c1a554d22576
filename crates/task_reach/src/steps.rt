ghost use Rattle.std.specs.Prelude.{◌≡◌, ◌<◌, length};
ghost use Rattle.task_types.specs.Open.{AllowsStep, AllowsEdge, AllowsPass};
ghost use Rattle.task_reach.specs.Gains.{Gains, FromFirst};
ghost use Rattle.task_reach.specs.Reached.{MayComeBy, MayComeThrough};

use crate::bits::{put_bit, put_pin};
use crate::roots::is_output;
use pb_expand::{EdgeIx, PbGraph, PbIx, PinIx};
use prog_map::{Inputs, inputs_of};
use sparse_set::SparseSet;
use task_open::{may_pass, may_take};
use task_trail::Trail;

/// Adds the pins that are one step back from a pin, as far as decisions leave it open: the sources
/// of the edges that it may take, and the inputs that a LUT may pass on to it.
pub fn put_steps(graph: &PbGraph, trail: &Trail, pin: PinIx, reached: &mut SparseSet)
    requires inside { pin.0 < length graph.now.pins }
    requires instances { trail.now.instances ≡ length graph.now.instances }
    requires pins { trail.now.pins ≡ length graph.now.pins }
    requires room { reached.old.room ≡ length graph.now.pins }
    ensures gains { Gains reached.old.items reached.new.items
        (AllowsStep graph.now trail.now.made pin.0) }
    ensures room { reached.new.room ≡ reached.old.room }
{
    put_sources(graph, trail, pin, reached);
    put_passed(graph, trail, pin, reached);
}

/// Adds the sources of the edges that a pin may take.
fn put_sources(graph: &PbGraph, trail: &Trail, pin: PinIx, reached: &mut SparseSet)
    requires inside { pin.0 < length graph.now.pins }
    requires instances { trail.now.instances ≡ length graph.now.instances }
    requires pins { trail.now.pins ≡ length graph.now.pins }
    requires room { reached.old.room ≡ length graph.now.pins }
    ensures gains { Gains reached.old.items reached.new.items
        (AllowsEdge graph.now trail.now.made pin.0) }
    ensures room { reached.new.room ≡ reached.old.room }
{
    for edge in graph.edges_into_pin(pin) {
        put_source(graph, trail, *edge, reached);
    }
}

/// Adds the source of an edge, where the edge may be taken.
fn put_source(graph: &PbGraph, trail: &Trail, edge: EdgeIx, reached: &mut SparseSet)
    requires inside { edge.0 < length graph.now.edges }
    requires instances { trail.now.instances ≡ length graph.now.instances }
    requires pins { trail.now.pins ≡ length graph.now.pins }
    requires room { reached.old.room ≡ length graph.now.pins }
    ensures gains { Gains reached.old.items reached.new.items
        (MayComeBy graph.now trail.now.made edge.0) }
    ensures room { reached.new.room ≡ reached.old.room }
{
    if may_take(graph, trail, edge) {
        put_pin(graph.edge(edge).src, reached);
    }
}

/// Adds the inputs that a LUT may pass on to a pin, where that is its output.
fn put_passed(graph: &PbGraph, trail: &Trail, pin: PinIx, reached: &mut SparseSet)
    requires inside { pin.0 < length graph.now.pins }
    requires instances { trail.now.instances ≡ length graph.now.instances }
    requires room { reached.old.room ≡ length graph.now.pins }
    ensures gains { Gains reached.old.items reached.new.items
        (AllowsPass graph.now trail.now.made pin.0) }
    ensures room { reached.new.room ≡ reached.old.room }
{
    graph.law();
    let at = graph.pin_at(pin);
    if !is_output(graph, at) {
        return;
    }
    if let Some(inputs) = inputs_of(graph, at.pb) {
        put_inputs(graph, trail, at.pb, inputs, reached);
    }
}

/// Adds those inputs of a LUT that it may pass on.
fn put_inputs(graph: &PbGraph, trail: &Trail, leaf: PbIx, inputs: Inputs, reached: &mut SparseSet)
    requires inside { leaf.0 < length graph.now.instances }
    requires instances { trail.now.instances ≡ length graph.now.instances }
    requires room { reached.old.room ≡ length graph.now.pins }
    ensures gains { Gains reached.old.items reached.new.items
        (FromFirst (MayComeThrough graph.now trail.now.made leaf.0 inputs.port) inputs.width) }
    ensures room { reached.new.room ≡ reached.old.room }
{
    for input in 0..inputs.width {
        put_input(graph, trail, leaf, inputs.port, input, reached);
    }
}

/// Adds an input of a LUT, where it may be passed on.
fn put_input(
    graph: &PbGraph,
    trail: &Trail,
    leaf: PbIx,
    port: u32,
    input: u32,
    reached: &mut SparseSet,
)
    requires inside { leaf.0 < length graph.now.instances }
    requires instances { trail.now.instances ≡ length graph.now.instances }
    requires room { reached.old.room ≡ length graph.now.pins }
    ensures gains { Gains reached.old.items reached.new.items
        (MayComeThrough graph.now trail.now.made leaf.0 port input) }
    ensures room { reached.new.room ≡ reached.old.room }
{
    if may_pass(graph, trail, leaf, input) {
        put_bit(graph, leaf, port, input, reached);
    }
}
