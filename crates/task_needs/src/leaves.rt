ghost use Rattle.std.specs.Prelude.{◌<◌, ◌^◌, IfOk, length};
ghost use Rattle.task_needs.specs.Plain.{ArePlainLeaves};

use std::alloc::{AllocError, Global};
use task_types::{Need, TaskNet};

/// For each net that is driven inside the need to leave.
pub(crate) fn leaves(alloc: Global, nets: &[TaskNet]) -> Result<Vec<Need>, AllocError>
    requires few_nets { length nets.now < 2 ^ 32 }
    ensures { IfOk result (λ needs. ArePlainLeaves nets.now needs.items) }
{
    let mut needs = Vec::new(alloc);
    for (place, net) in nets.iter().enumerate() {
        if net.maker.is_some() {
            needs.push(Need::Leave { net: place as u32 })?;
        }
    }
    Ok(needs)
}
