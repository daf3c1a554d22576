ghost use Rattle.std.specs.Prelude.{◌≡◌, ◌<◌, ◌↔◌, ℕ, IfOk, IsTrue, length};
ghost use Rattle.arch_types.specs.declared.block.Side.TheVariants.{Output};
ghost use Rattle.vtr_base.specs.Lists.{Has};
ghost use Rattle.prog_map.specs.Leaves.{IsOutput};
ghost use Rattle.task_reach.specs.Gains.{Gains, FromFirst, FromItem};
ghost use Rattle.task_reach.specs.Valid.{IsTaskOf};
ghost use Rattle.search_crowds.specs.Webs.{EndsOne, StartsOne, AreSources, CanStart};

use arch_types::{Port, Side};
use net_types::Netlist;
use pb_expand::{PbGraph, PinAt, PinIx};
use sparse_set::SparseSet;
use std::alloc::{AllocError, Global};
use task_reach::{may_start, put_ends};
use task_trail::Trail;
use task_types::Task;

/// Adds the pins at which some needs may be met.
pub(crate) fn put_all_ends(
    net: &Netlist,
    graph: &PbGraph,
    task: &Task,
    trail: &Trail,
    needs: &[u32],
    reached: &mut SparseSet,
)
    requires task { IsTaskOf graph.now task.now }
    requires needs { (number : ℕ) → Has needs.now number → number < length task.now.needs }
    requires atoms { trail.now.atoms ≡ length task.now.atoms }
    requires instances { trail.now.instances ≡ length graph.now.instances }
    requires room { reached.old.room ≡ length graph.now.pins }
    ensures gains { Gains reached.old.items reached.new.items (FromFirst (FromItem needs.now
        (EndsOne graph.now net.now.atoms task.now trail.now.made)) (length needs.now)) }
    ensures room { reached.new.room ≡ reached.old.room }
{
    for number in needs {
        put_ends_of(net, graph, task, trail, *number, reached);
    }
}

/// Adds the pins at which a need may be met.
fn put_ends_of(
    net: &Netlist,
    graph: &PbGraph,
    task: &Task,
    trail: &Trail,
    number: u32,
    reached: &mut SparseSet,
)
    requires task { IsTaskOf graph.now task.now }
    requires number { number < length task.now.needs }
    requires atoms { trail.now.atoms ≡ length task.now.atoms }
    requires instances { trail.now.instances ≡ length graph.now.instances }
    requires room { reached.old.room ≡ length graph.now.pins }
    ensures gains { Gains reached.old.items reached.new.items
        (EndsOne graph.now net.now.atoms task.now trail.now.made number) }
    ensures room { reached.new.room ≡ reached.old.room }
{
    let need = task.needs.as_slice()[number as usize];
    put_ends(net, graph, task, trail, need, reached);
}

/// Those of some pins from which the net of one of the needs may come.
pub(crate) fn sources_among(
    alloc: Global,
    net: &Netlist,
    graph: &PbGraph,
    task: &Task,
    trail: &Trail,
    needs: &[u32],
    pins: &[u32],
) -> Result<Vec<u32>, AllocError>
    requires task { IsTaskOf graph.now task.now }
    requires needs { (number : ℕ) → Has needs.now number → number < length task.now.needs }
    requires inside { (pin : ℕ) → Has pins.now pin → pin < length graph.now.pins }
    requires atoms { trail.now.atoms ≡ length task.now.atoms }
    requires instances { trail.now.instances ≡ length graph.now.instances }
    requires pins { trail.now.pins ≡ length graph.now.pins }
    ensures { IfOk result (λ sources. AreSources graph.now net.now.atoms task.now trail.now.made
        needs.now pins.now sources.items) }
{
    let mut sources = Vec::new(alloc);
    for pin in pins {
        if starts_one(net, graph, task, trail, needs, PinIx(*pin)) {
            sources.push(*pin)?;
        }
    }
    Ok(sources)
}

/// Whether the net of one of the needs may come from a pin.
fn starts_one(
    net: &Netlist,
    graph: &PbGraph,
    task: &Task,
    trail: &Trail,
    needs: &[u32],
    pin: PinIx,
) -> bool
    requires task { IsTaskOf graph.now task.now }
    requires needs { (number : ℕ) → Has needs.now number → number < length task.now.needs }
    requires pin { pin.0 < length graph.now.pins }
    requires atoms { trail.now.atoms ≡ length task.now.atoms }
    requires instances { trail.now.instances ≡ length graph.now.instances }
    requires pins { trail.now.pins ≡ length graph.now.pins }
    ensures { IsTrue result ↔ StartsOne graph.now net.now.atoms task.now trail.now.made needs.now
        pin.0 }
{
    if !is_source_pin(graph, pin) {
        return false;
    }
    let all = task.needs.as_slice();
    for number in needs {
        if may_start(net, graph, task, trail, all[*number as usize], pin) {
            return true;
        }
    }
    false
}

/// Whether nets come from a pin at all: it is one of the block itself, or of an output port.
fn is_source_pin(graph: &PbGraph, pin: PinIx) -> bool
    requires { pin.0 < length graph.now.pins }
    ensures { IsTrue result ↔ CanStart graph.now pin.0 }
{
    let at = graph.pin_at(pin);
    if at.pb.0 == 0 {
        return true;
    }
    is_output(graph, at)
}

/// Whether a pin is of an output port.
fn is_output(graph: &PbGraph, pin: PinAt) -> bool
    requires { pin.pb.0 < length graph.now.instances }
    ensures { IsTrue result ↔ IsOutput graph.now pin }
{
    match graph.ports(pin.pb).get(pin.port as usize) {
        None => false,
        Some(port) => leads_out(port),
    }
}

/// Whether a port is one of outputs.
fn leads_out(port: &Port) -> bool
    ensures { IsTrue result ↔ (port.now.side ≡ Output) }
{
    port.side == Side::Output
}
