ghost use Rattle.std.specs.Prelude.{◌<◌, ◌≤◌, ◌-◌, ◌^◌, IfOk, length};
ghost use Rattle.std.specs.List.{All};
ghost use Rattle.list_laws.specs.Orders.{Ordered, HaveSame};

use std::alloc::{AllocError, Global};

/// The numbers of a list in ascending order, each once.
pub(crate) fn sorted(alloc: Global, list: &[u32]) -> Result<Vec<u32>, AllocError>
    requires low { All (λ number. number < 2 ^ 32 - 1) list.now }
    ensures order { IfOk result (λ sorted. Ordered ◌<◌ sorted.items) }
    ensures same { IfOk result (λ sorted. HaveSame sorted.items list.now) }
    ensures few { IfOk result (λ sorted. length sorted.items ≤ 2 ^ 32 - 1) }
{
    let mut sorted = Vec::from_slice(alloc, list)?;
    sorted.sort_unstable();
    sorted.dedup();
    Ok(sorted)
}
