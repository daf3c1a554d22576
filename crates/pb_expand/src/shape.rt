ghost use Rattle.std.specs.Prelude.{◌≡◌, ◌≤◌, ◌<◌, ◌^◌, IfOk, map, length};
ghost use Rattle.arch_types.specs.Tree.{modes_of};
ghost use Rattle.pb_expand.specs.Graph.{kind_of, pins_of_ports};
ghost use Rattle.pb_expand.specs.Making.{AreShort, pins_over};
ghost use Rattle.pb_expand.specs.Shapes.{AreShapes};

use crate::{PbKind, PinIx};
use arch_types::{AtomKind, Kind, PbType, Port};
use std::alloc::{AllocError, Global};

/// What is kept of an instance, so that no look-up goes through the tree.
#[derive(Clone, Copy, Debug)]
pub(crate) struct Shape {
    pub kind: PbKind,
    /// How many ports it has.
    pub ports: u32,
    /// How many pins it has, from `first_pin` on.
    pub pins: u32,
    pub first_pin: PinIx,
}

/// The shapes of all instances.
pub(crate) fn shapes_of(alloc: Global, blocks: &[&PbType]) -> Result<Vec<Shape>, AllocError>
    requires short { AreShort (map (λ b. b.now) blocks.now) }
    requires few { length (pins_over 0 (map (λ b. b.now) blocks.now)) ≤ 1048576 }
    ensures { IfOk result (λ ss. AreShapes (map (λ b. b.now) blocks.now) ss.items) }
{
    let mut shapes = Vec::with_capacity(alloc, blocks.len())?;
    let mut next = 0;
    for block in blocks {
        let pins = pin_count(block.ports.as_slice());
        shapes.push(Shape {
            kind: kind_of_block(block),
            ports: block.ports.len() as u32,
            pins,
            first_pin: PinIx(next),
        })?;
        next += pins;
    }
    Ok(shapes)
}

/// How many pins these ports have.
fn pin_count(ports: &[Port]) -> u32
    requires { length (pins_of_ports 0 0 ports.now) < 2 ^ 32 }
    ensures { result ≡ length (pins_of_ports 0 0 ports.now) }
{
    let mut count = 0;
    for port in ports {
        count += port.width;
    }
    count
}

/// What a pb_type is.
fn kind_of_block(block: &PbType) -> PbKind
    requires { length (modes_of block.now.kind) < 2 ^ 32 }
    ensures { result ≡ kind_of block.now.kind }
{
    match &block.kind {
        Kind::InPad => PbKind::Leaf(AtomKind::InPad),
        Kind::OutPad => PbKind::Leaf(AtomKind::OutPad),
        Kind::Lut => PbKind::Leaf(AtomKind::Lut),
        Kind::Latch => PbKind::Leaf(AtomKind::Latch),
        Kind::Cell(model) => PbKind::Leaf(AtomKind::Cell(*model)),
        Kind::Modes(modes) => PbKind::Modes(modes.len() as u32),
    }
}
