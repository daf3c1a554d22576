ghost use Rattle.std.specs.Prelude.{◌<◌, ◌≤◌, ◌^◌, ℕ, IfOk, length};
ghost use Rattle.vtr_base.specs.Lists.{Has};
ghost use Rattle.task_rules.specs.Joined.{IsJoined};
ghost use Rattle.task_needs.specs.Plain.{AreNeeds};

use crate::asked::push_all_asked;
use crate::leaves::leaves;
use net_types::Netlist;
use number_places::Numbers;
use sqlite_items::Items;
use std::alloc::{AllocError, Global};
use task_types::{Need, TaskNet};

/// What the nets of these atoms need: what is asked for at the input connections, atom by atom, and
/// then that each net that is driven inside leaves. `numbers` has the numbers of the nets that the
/// atoms join, and `nets` what a task says of each of them.
pub fn task_needs(
    alloc: Global,
    net: &Netlist,
    atoms: &[u32],
    numbers: &Numbers,
    nets: &[TaskNet],
) -> Result<Items<Need>, AllocError>
    requires few { length atoms.now ≤ 4096 }
    requires few_nets { length nets.now < 2 ^ 32 }
    requires there { (number : ℕ) → Has atoms.now number → number < length net.now.atoms }
    requires joined { (k : ℕ) → IsJoined net.now.atoms atoms.now k → Has numbers.now k }
    ensures { IfOk result (AreNeeds net.now.atoms atoms.now numbers.now nets.now) }
{
    let mut needs = Vec::new(alloc);
    push_all_asked(&mut needs, net, atoms, numbers)?;
    let leaves = leaves(alloc, nets)?;
    needs.extend_from_slice(leaves.as_slice())?;
    Ok(Items::from_vec(needs))
}
