ghost use Rattle.std.specs.Prelude.{◌≡◌, ◌<◌, ◌≤◌, ◌^◌, ◌↔◌, ℕ, List, [], Some, IfOk, IsTrue, MatchBool, length, slice_get};
ghost use Rattle.task_types.specs.declared.task.Need.{Need as NeedSaid};
ghost use Rattle.task_types.specs.declared.decision.Decision.{Decision};
ghost use Rattle.task_types.specs.Ends.{IsFed, net_of};
ghost use Rattle.task_types.specs.Tidy.{AreFirsts};
ghost use Rattle.sparse_set.specs.Sets.{held_on};
ghost use Rattle.search_crowds.specs.Firsts.{IsTaken, IsPassed};

use sparse_set::SparseSet;
use std::alloc::{AllocError, Global};
use task_reach::net_of;
use task_types::{Need, Task};

/// The first need of each net, of those that a net may feed from outside, which have to be met
/// whatever is decided. The nets are in the set then.
pub(crate) fn first_needs(
    alloc: Global,
    task: &Task,
    nets: &mut SparseSet,
) -> Result<Vec<u32>, AllocError>
    requires inside { (number : ℕ) (need : NeedSaid) → slice_get task.now.needs number ≡ Some need
        → net_of need < length task.now.nets }
    requires few_needs { length task.now.needs < 2 ^ 32 }
    requires nets { nets.old ≡ held_on [] (length task.now.nets) }
    ensures firsts { IfOk result (λ firsts. (made : List Decision) → AreFirsts task.now made
        firsts.items) }
    ensures few { IfOk result (λ firsts. length firsts.items ≤ length task.now.needs) }
    ensures room { nets.new.room ≡ nets.old.room }
{
    let mut firsts = Vec::new(alloc);
    for (number, need) in task.needs.as_slice().iter().enumerate() {
        if takes_net(*need, nets) {
            firsts.push(number as u32)?;
        }
    }
    Ok(firsts)
}

/// Whether a net may feed the need from outside and wasn't in the set, where it is then.
fn takes_net(need: Need, nets: &mut SparseSet) -> bool
    requires { net_of need < nets.old.room }
    ensures taken { MatchBool result (IsTaken nets.old nets.new need)
        (IsPassed nets.old nets.new need) }
{
    is_fed(need) && nets.insert(net_of(need))
}

/// Whether a net may feed the need from outside.
fn is_fed(need: Need) -> bool
    ensures { IsTrue result ↔ IsFed need }
{
    match need {
        Need::Input { .. } => true,
        Need::LutNet { .. } => true,
        Need::Leave { .. } => false,
        Need::LeaveAt { .. } => false,
    }
}
