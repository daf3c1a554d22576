ghost use Rattle.std.specs.Prelude.{◌≡◌, ◌<◌, ◌^◌, ◌↔◌, ℕ, IfSome, IsFalse, IsSome, IsTrue, MatchOption, Some, length, slice_get};
ghost use Rattle.arch_types.specs.declared.block.Side.TheVariants.{Input};
ghost use Rattle.vtr_base.specs.Lists.{IsFirstPlace};
ghost use Rattle.prog_map.specs.Leaves.{AreInputs, sides_of, IsLeaf, IsLut, HasModes, IsOutput, port_at};

use arch_types::{AtomKind, Port, Side};
use pb_expand::{PbGraph, PbIx, PbKind, PinAt};

/// Through which port a LUT reads, and how many inputs it has.
#[derive(Clone, Copy, Debug, PartialEq, Eq)]
pub struct Inputs {
    pub port: u32,
    pub width: u32,
}

/// The inputs of a LUT; nothing where the instance is none, or reads through no port.
pub fn inputs_of(graph: &PbGraph, pb: PbIx) -> Option<Inputs>
    requires { pb.0 < length graph.now.instances }
    ensures inputs { MatchOption result ((port width : ℕ) → AreInputs graph.now pb.0 port width → ⊥)
        (λ inputs. AreInputs graph.now pb.0 inputs.port inputs.width) }
    ensures narrow { IfSome result (λ inputs. inputs.width < 2 ^ 32) }
{
    if !is_lut(graph, pb) {
        return None;
    }
    let ports = graph.ports(pb);
    let place = first_input(ports)?;
    let port = u32::try_from(place).ok()?;
    Some(Inputs {
        port,
        width: width_of(&ports[place]),
    })
}

/// Whether an instance is a LUT.
pub fn is_lut(graph: &PbGraph, pb: PbIx) -> bool
    requires { pb.0 < length graph.now.instances }
    ensures { IsTrue result ↔ IsLut graph.now pb.0 }
{
    graph.kind(pb) == PbKind::Leaf(AtomKind::Lut)
}

/// Whether an instance is a leaf.
pub fn is_leaf(graph: &PbGraph, pb: PbIx) -> bool
    requires { pb.0 < length graph.now.instances }
    ensures leaf { IsTrue result ↔ IsLeaf graph.now pb.0 }
    ensures modes { IsFalse result ↔ HasModes graph.now pb.0 }
{
    match graph.kind(pb) {
        PbKind::Leaf(_) => true,
        PbKind::Modes(_) => false,
    }
}

/// The place of the first input port.
fn first_input(ports: &[Port]) -> Option<usize>
    ensures place { MatchOption result ((place : ℕ) → slice_get (sides_of ports.now) place ≡ Some
        Input → ⊥) (IsFirstPlace (sides_of ports.now) Input) }
    ensures inside { IfSome result (λ place. place < length ports.now) }
{
    for (place, port) in ports.iter().enumerate() {
        if has_side(port, Side::Input) {
            return Some(place);
        }
    }
    None
}

/// How many pins a port has.
fn width_of(port: &Port) -> u32
    ensures width { result ≡ port.now.width }
    ensures narrow { result < 2 ^ 32 }
{
    port.width
}

/// Whether a port leads that way.
fn has_side(port: &Port, side: Side) -> bool
    ensures { IsTrue result ↔ (port.now.side ≡ side) }
{
    port.side == side
}

/// Whether a pin is of an output port.
pub(crate) fn is_output(graph: &PbGraph, pin: PinAt) -> bool
    requires inside { pin.pb.0 < length graph.now.instances }
    requires there { IsSome (port_at graph.now pin) }
    ensures { IsTrue result ↔ IsOutput graph.now pin }
{
    has_side(&graph.ports(pin.pb)[pin.port as usize], Side::Output)
}
