ghost use Rattle.std.specs.Prelude.{◌≡◌, ◌<◌, length, map, IfOk};
ghost use Rattle.list_laws.specs.Orders.{Once, Ordered, HaveSame};

use rr_items::CarriedNode;
use std::alloc::{AllocError, Global};

/// The nodes by ascending ids.
pub(crate) fn by_id(alloc: Global, nodes: &[CarriedNode]) -> Result<Vec<CarriedNode>, AllocError>
    requires { Once (map (λ n. n.id) nodes.now) }
    ensures same { IfOk result (λ sorted. HaveSame nodes.now sorted.items) }
    ensures ascending { IfOk result (λ sorted. Ordered (λ n m. n.id < m.id) sorted.items) }
    ensures long { IfOk result (λ sorted. length sorted.items ≡ length nodes.now) }
{
    let mut sorted = Vec::from_slice(alloc, nodes)?;
    sorted.sort_unstable_by_key(|node| node.id);
    Ok(sorted)
}
