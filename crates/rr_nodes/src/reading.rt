ghost use Rattle.std.specs.Prelude.{◌≡◌, ◌⊎◌, codes, MatchResult};
ghost use Rattle.elem_reading.specs.Kids.{kids_under as under};
ghost use Rattle.rr_nodes.specs.Gathering.{gathered_nodes, FitTogether};
ghost use Rattle.rr_nodes.specs.Saying.{SaysNodes, AddsNode};
ghost use Rattle.rr_nodes.specs.Refusing.{Fails, IsRefused};

use crate::error::NodeError;
use crate::gathered::Gathered;
use crate::nodes::Nodes;
use crate::one::next_node;
use crate::pins::PinTable;
use elem_reading::kids_under;
use elem_text::Elem;
use std::alloc::Global;

/// The nodes of a routing graph file (VPR's file formats: `node` elements in `rr_nodes`), each
/// joined to the pin that the table has for it. The first node that fails is told; where one node
/// fails in several ways, it is broken before it stands in another layer, and that before it has
/// no pin.
pub fn read_nodes<T: PinTable>(alloc: Global, root: &Elem, pins: &T) -> Result<Nodes, NodeError>
    ensures { MatchResult result
        (SaysNodes (T.pin_of pins.now) (under root.now (codes "rr_nodes") (codes "node")))
        (λ e. (e ≡ NodeError.OutOfMemory) ⊎ IsRefused (T.pin_of pins.now)
        (under root.now (codes "rr_nodes") (codes "node")) e) }
{
    let elems = kids_under(alloc, root, b"rr_nodes", b"node")?;
    let mut found = Gathered::new(alloc);
    for elem in elems.as_slice() {
        add_node(&mut found, elem, pins)?;
    }
    Ok(Nodes::of_gathered(found))
}

/// Adds the node that the next element says.
fn add_node<T: PinTable>(found: &mut Gathered, elem: &Elem, pins: &T) -> Result<(), NodeError>
    requires { FitTogether found.old }
    ensures { MatchResult result
        (λ _. AddsNode (T.pin_of pins.now) (gathered_nodes found.old) elem.now
        (gathered_nodes found.new) × FitTogether found.new)
        (λ e. (e ≡ NodeError.OutOfMemory) ⊎ Fails (T.pin_of pins.now)
        (gathered_nodes found.old) elem.now e) }
{
    let node = next_node(elem, found, pins)?;
    found.add(node)?;
    Ok(())
}
