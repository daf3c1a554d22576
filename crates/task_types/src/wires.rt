ghost use Rattle.std.specs.Prelude.{◌≡◌, ◌<◌, ◌^◌, ◌↔◌, IsTrue, length};
ghost use Rattle.arch_types.specs.declared.block.Side.TheVariants.{Input};
ghost use Rattle.arch_types.specs.Blocks.{ports_on};
ghost use Rattle.task_types.specs.Options.{first_width, wires_at};

use arch_types::{AtomKind, Port, Side};
use pb_expand::{PbGraph, PbIx, PbKind};

/// How many inputs an instance could pass on: a LUT each of its inputs, and anything else none.
pub fn wires_at(graph: &PbGraph, pb: PbIx) -> u32
    requires { pb.0 < length graph.now.instances }
    ensures wires { result ≡ wires_at graph.now pb.0 }
    ensures narrow { result < 2 ^ 32 }
{
    match graph.kind(pb) {
        PbKind::Leaf(AtomKind::Lut) => first_width(graph.ports(pb)),
        PbKind::Leaf(_) | PbKind::Modes(_) => 0,
    }
}

/// How many pins the first input port has; 0 where there is none.
fn first_width(ports: &[Port]) -> u32
    ensures width { result ≡ first_width (ports_on Input ports.now) }
    ensures narrow { result < 2 ^ 32 }
{
    for port in ports {
        if is_input(port) {
            return port.width;
        }
    }
    0
}

/// Whether a port is one of inputs; a clock is none.
fn is_input(port: &Port) -> bool
    ensures { IsTrue result ↔ (port.now.side ≡ Input) }
{
    port.side == Side::Input
}
