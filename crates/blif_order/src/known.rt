ghost use Rattle.std.specs.Prelude.{◌≡◌, ◌≤◌};
ghost use Rattle.net_types.specs.Order.{nets_of};
ghost use Rattle.blif_order.specs.Tops.{top, top_of};

use net_types::{Atom, Conn};

/// How many nets are mentioned behind an atom's line, where those below `known` were before.
pub(crate) fn known_after(known: u64, atom: &Atom) -> u64
    ensures known { result ≡ top_of known atom.now }
    ensures more { known ≤ result }
{
    let known = known_behind(known, atom.ins.as_slice());
    known_behind(known, atom.outs.as_slice())
}

/// The same for these connections.
fn known_behind(known: u64, conns: &[Conn]) -> u64
    ensures known { result ≡ top known (nets_of conns.now) }
    ensures more { known ≤ result }
{
    let mut known = known;
    for conn in conns {
        known = known.max(u64::from(conn.net) + 1);
    }
    known
}
