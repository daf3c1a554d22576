ghost use Rattle.std.specs.Prelude.{◌≤◌, ◌+◌, ◌++◌, ◌∷◌, [], ◌↔◌, IsTrue, length};
ghost use Rattle.vtr_base.specs.Lists.{Has};
ghost use Rattle.net_types.specs.Order.{nets_of};
ghost use Rattle.atom_homes.specs.Homes.{FitsLut, HasDifferent, IsWide};

use arch_types::{Port, Side};
use net_types::Conn;

/// Whether a LUT with these ports has at least as many inputs as there are different nets.
pub(crate) fn fits_lut(conns: &[Conn], ports: &[Port]) -> bool
    ensures { IsTrue result ↔ FitsLut conns.now ports.now }
{
    let nets = different(conns);
    for port in ports {
        if is_wide(port, nets) {
            return true;
        }
    }
    false
}

/// Whether a port is of inputs, and has at least so many pins.
fn is_wide(port: &Port, nets: usize) -> bool
    ensures { IsTrue result ↔ IsWide nets port.now }
{
    port.side == Side::Input && nets <= port.width as usize
}

/// How many different nets there are.
fn different(conns: &[Conn]) -> usize
    ensures { HasDifferent (nets_of conns.now) result }
{
    let mut count = 0;
    for (place, conn) in conns.iter().enumerate() {
        count = counted(count, &conns[..place], conn.net);
    }
    count
}

/// How many different nets there are with one more, where so many are among these connections.
fn counted(count: usize, conns: &[Conn], net: u32) -> usize
    requires { count ≤ length conns.now }
    ensures nets { HasDifferent (nets_of conns.now) count
        → HasDifferent (nets_of conns.now ++ net ∷ []) result }
    ensures low { result ≤ length conns.now + 1 }
{
    if has_net(conns, net) {
        return count;
    }
    count + 1
}

/// Whether one of the connections is of the net.
fn has_net(conns: &[Conn], net: u32) -> bool
    ensures { IsTrue result ↔ Has (nets_of conns.now) net }
{
    for conn in conns {
        if conn.net == net {
            return true;
        }
    }
    false
}
