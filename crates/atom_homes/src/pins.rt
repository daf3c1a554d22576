ghost use Rattle.std.specs.Prelude.{◌↔◌, IsTrue};
ghost use Rattle.std.specs.List.{All};
ghost use Rattle.atom_homes.specs.Homes.{FitsBox, HasBit, HasInput, HasOutput, IsInputAt, IsOutputAt};

use arch_types::{Port, Side};
use net_types::{Atom, Conn};

/// Whether a box with these ports has each connected bit of the atom's ports on the same side.
pub(crate) fn fits_box(atom: &Atom, ports: &[Port]) -> bool
    ensures { IsTrue result ↔ FitsBox atom.now ports.now }
{
    have_inputs(atom.ins.as_slice(), ports) && have_outputs(atom.outs.as_slice(), ports)
}

fn have_inputs(conns: &[Conn], ports: &[Port]) -> bool
    ensures { IsTrue result ↔ All (HasInput ports.now) conns.now }
{
    conns.iter().all(|conn| has_input(ports, conn))
}

fn have_outputs(conns: &[Conn], ports: &[Port]) -> bool
    ensures { IsTrue result ↔ All (HasOutput ports.now) conns.now }
{
    conns.iter().all(|conn| has_output(ports, conn))
}

/// Whether the ports have this input or clock pin.
fn has_input(ports: &[Port], conn: &Conn) -> bool
    ensures { IsTrue result ↔ HasInput ports.now conn.now }
{
    for port in ports {
        if is_input_at(port, conn) {
            return true;
        }
    }
    false
}

/// Whether the ports have this output pin.
fn has_output(ports: &[Port], conn: &Conn) -> bool
    ensures { IsTrue result ↔ HasOutput ports.now conn.now }
{
    for port in ports {
        if is_output_at(port, conn) {
            return true;
        }
    }
    false
}

fn is_input_at(port: &Port, conn: &Conn) -> bool
    ensures { IsTrue result ↔ IsInputAt conn.now port.now }
{
    port.side != Side::Output && has_bit(port, conn)
}

fn is_output_at(port: &Port, conn: &Conn) -> bool
    ensures { IsTrue result ↔ IsOutputAt conn.now port.now }
{
    port.side == Side::Output && has_bit(port, conn)
}

/// Whether the port is that of the connection, and has its bit.
fn has_bit(port: &Port, conn: &Conn) -> bool
    ensures { IsTrue result ↔ HasBit conn.now port.now }
{
    port.name.is(conn.port.as_bytes()) && conn.bit < port.width
}
