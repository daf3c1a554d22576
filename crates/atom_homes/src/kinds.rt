ghost use Rattle.std.specs.Prelude.{◌↔◌, IsTrue};
ghost use Rattle.atom_homes.specs.Homes.{Fits};

use crate::lut::fits_lut;
use crate::pins::fits_box;
use arch_types::Port;
use net_types::{Atom, AtomKind};

/// Whether a leaf of this kind with these ports can hold an atom: it is of the atom's kind; a LUT
/// has at least as many inputs as the atom has different input nets; a box has each connected bit
/// of the atom's ports on the same side, a clock counting as an input. It takes no memory.
pub fn fits(atom: &Atom, kind: AtomKind, ports: &[Port]) -> bool
    ensures { IsTrue result ↔ Fits kind atom.now ports.now }
{
    if kind != atom.kind {
        return false;
    }
    match kind {
        AtomKind::Lut => fits_lut(atom.ins.as_slice(), ports),
        AtomKind::Cell(_) => fits_box(atom, ports),
        _ => true,
    }
}
