ghost use Rattle.std.specs.Prelude.{◌≡◌, ◌<◌, ◌↔◌, Some, IsTrue, length, slice_get};
ghost use Rattle.leaf_homes.specs.Leaves.{CanHold, HoldsAt};

use atom_homes::fits;
use net_types::{Atom, AtomKind, Netlist};
use pb_expand::{PbGraph, PbIx, PbKind};

/// Whether a leaf of a block type can hold an atom of a netlist: it is of the atom's kind, a LUT
/// has at least as many inputs as the atom has different input nets, and a box has each connected
/// bit of the atom's ports on the same side, a clock counting as an input (VTR architecture
/// reference, "Primitives"). An instance with modes holds none. It takes no memory; the kinds are
/// compared first, in constant time.
pub fn can_hold(net: &Netlist, atom: u32, graph: &PbGraph, leaf: PbIx) -> bool
    requires atom { atom < length net.now.atoms }
    requires leaf { leaf.0 < length graph.now.instances }
    ensures { IsTrue result ↔ CanHold net.now.atoms graph.now atom leaf.0 }
{
    holds_at(&net.atoms()[atom as usize], graph, leaf)
}

/// The same of an atom at hand.
fn holds_at(atom: &Atom, graph: &PbGraph, leaf: PbIx) -> bool
    requires { leaf.0 < length graph.now.instances }
    ensures { IsTrue result ↔ HoldsAt graph.now atom.now leaf.0 }
{
    match graph.kind(leaf) {
        PbKind::Modes(_) => false,
        PbKind::Leaf(kind) => kind == atom.kind && fits(atom, kind, graph.ports(leaf)),
    }
}
