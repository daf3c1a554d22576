ghost use Rattle.std.specs.Prelude.{◌≡◌, ◌<◌, ◌^◌, ◌∷◌, [], IfOk, length};
ghost use Rattle.blif_parts.specs.Atoms.{bits_from, conn_at};

use net_types::Conn;
use sqlite_items::Items;
use std::alloc::{AllocError, Global};
use vtr_base::Text;

/// A connection of bit `bit` of a port.
pub(crate) fn conn_of(alloc: Global, port: &str, bit: u32, net: u32) -> Result<Conn, AllocError>
    ensures { IfOk result (λ conn. conn ≡ conn_at port.now bit net) }
{
    let port = Text::from_str(alloc, port)?;
    Ok(Conn { port, bit, net })
}

/// The one connection of a port of one bit.
pub(crate) fn only_conn(alloc: Global, port: &str, net: u32) -> Result<Items<Conn>, AllocError>
    ensures { IfOk result (λ conns. conns ≡ conn_at port.now 0 net ∷ []) }
{
    let mut conns = Items::new(alloc);
    conns.push(conn_of(alloc, port, 0, net)?)?;
    Ok(conns)
}

/// Connections of a port, bit by bit.
pub(crate) fn bit_conns(alloc: Global, port: &str, nets: &[u32]) -> Result<Items<Conn>, AllocError>
    requires { length nets.now < 2 ^ 32 }
    ensures { IfOk result (λ conns. conns ≡ bits_from port.now 0 nets.now) }
{
    let mut conns = Vec::with_capacity(alloc, nets.len())?;
    for (bit, net) in nets.iter().enumerate() {
        conns.push(conn_of(alloc, port, bit as u32, *net)?)?;
    }
    Ok(Items::from_vec(conns))
}
