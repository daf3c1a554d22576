ghost use Rattle.std.specs.Prelude.{◌≡◌, ◌≢◌, ◌<◌, ◌↔◌, ◌⊎◌, IsTrue, Some, length, slice_get, codes};
ghost use Rattle.arch_types.specs.declared.block.Side.TheVariants.{Input, Output, Clock};
ghost use Rattle.pb_expand.specs.Graph.{pin_at};
ghost use Rattle.task_types.specs.Ends.{FitsIn, FitsOut, IsConnAt, IsLutInput};
ghost use Rattle.task_reach.specs.Gains.{Gains, FromFirst};
ghost use Rattle.task_reach.specs.Reached.{IsBitOfPort};

use crate::bits::put_bit;
use arch_types::{AtomKind, Port, Side};
use net_types::Conn;
use pb_expand::{PbGraph, PbIx};
use prog_map::{Inputs, inputs_of};
use sparse_set::SparseSet;

/// Adds the pins of an input connection of an atom of that kind, were a leaf its home.
pub(crate) fn put_conn(
    graph: &PbGraph,
    kind: AtomKind,
    conn: &Conn,
    leaf: PbIx,
    reached: &mut SparseSet,
)
    requires inside { leaf.0 < length graph.now.instances }
    requires room { reached.old.room ≡ length graph.now.pins }
    ensures gains { Gains reached.old.items reached.new.items
        (IsConnAt graph.now (FitsIn kind conn.now) conn.now leaf.0) }
    ensures room { reached.new.room ≡ reached.old.room }
{
    graph.law();
    graph.keeps();
    let ports = graph.ports(leaf);
    for place in 0..ports.len() {
        put_port(graph, kind, conn, leaf, ports, place as u32, reached);
    }
}

/// Adds the pin of the connection at that port, where the port fits it and has the bit.
fn put_port(
    graph: &PbGraph,
    kind: AtomKind,
    conn: &Conn,
    leaf: PbIx,
    ports: &[Port],
    place: u32,
    reached: &mut SparseSet,
)
    requires inside { leaf.0 < length graph.now.instances }
    requires place { place < length ports.now }
    requires room { reached.old.room ≡ length graph.now.pins }
    ensures gains { Gains reached.old.items reached.new.items
        (IsBitOfPort graph.now kind conn.now leaf.0 ports.now place) }
    ensures room { reached.new.room ≡ reached.old.room }
{
    if fits_in(kind, conn, &ports[place as usize]) {
        put_bit(graph, leaf, place, conn.bit, reached);
    }
}

/// Adds the inputs of a leaf, where it is a LUT.
pub(crate) fn put_lut(graph: &PbGraph, leaf: PbIx, reached: &mut SparseSet)
    requires inside { leaf.0 < length graph.now.instances }
    requires room { reached.old.room ≡ length graph.now.pins }
    ensures gains { Gains reached.old.items reached.new.items (IsLutInput graph.now leaf.0) }
    ensures room { reached.new.room ≡ reached.old.room }
{
    graph.law();
    if let Some(inputs) = inputs_of(graph, leaf) {
        put_bits(graph, leaf, inputs, reached);
    }
}

/// Adds the first pins of a port.
fn put_bits(graph: &PbGraph, leaf: PbIx, inputs: Inputs, reached: &mut SparseSet)
    requires inside { leaf.0 < length graph.now.instances }
    requires room { reached.old.room ≡ length graph.now.pins }
    ensures gains { Gains reached.old.items reached.new.items
        (FromFirst (λ bit q. slice_get graph.now.pins q ≡ Some (pin_at leaf.0 inputs.port bit))
        inputs.width) }
    ensures room { reached.new.room ≡ reached.old.room }
{
    for bit in 0..inputs.width {
        put_bit(graph, leaf, inputs.port, bit, reached);
    }
}

/// Whether an input connection of an atom of that kind is one of a port.
fn fits_in(kind: AtomKind, conn: &Conn, port: &Port) -> bool
    ensures { IsTrue result ↔ FitsIn kind conn.now port.now }
{
    match kind {
        AtomKind::Cell(_) => has_name(port, conn) && port.side != Side::Output,
        AtomKind::Latch => fits_latch(conn, port),
        AtomKind::InPad | AtomKind::OutPad | AtomKind::Lut => port.side == Side::Input,
    }
}

/// Whether an input connection of a latch is one of a port: its control is the clock.
fn fits_latch(conn: &Conn, port: &Port) -> bool
    ensures { IsTrue result ↔ (((conn.now.port ≡ codes "clk") × (port.now.side ≡ Clock))
        ⊎ ((conn.now.port ≢ codes "clk") × (port.now.side ≡ Input))) }
{
    if is_clock(conn) {
        return port.side == Side::Clock;
    }
    port.side == Side::Input
}

/// Whether that is the control of a latch.
fn is_clock(conn: &Conn) -> bool
    ensures { IsTrue result ↔ (conn.now.port ≡ codes "clk") }
{
    conn.port.as_str() == "clk"
}

/// Whether an output connection of an atom of that kind is one of a port.
pub(crate) fn fits_out(kind: AtomKind, conn: &Conn, port: &Port) -> bool
    ensures { IsTrue result ↔ FitsOut kind conn.now port.now }
{
    match kind {
        AtomKind::Cell(_) => has_name(port, conn) && port.side == Side::Output,
        AtomKind::Latch | AtomKind::InPad | AtomKind::OutPad | AtomKind::Lut => {
            port.side == Side::Output
        }
    }
}

/// Whether a port has the name that a connection gives.
fn has_name(port: &Port, conn: &Conn) -> bool
    ensures { IsTrue result ↔ (port.now.name ≡ conn.now.port) }
{
    port.name.as_str() == conn.port.as_str()
}
