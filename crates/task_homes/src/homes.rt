ghost use Rattle.std.specs.Prelude.{◌<◌, ℕ, IfOk, length};
ghost use Rattle.vtr_base.specs.Lists.{Has};
ghost use Rattle.task_homes.specs.Homes.{AreHomes, IsLeafList};

use leaf_homes::can_hold;
use net_types::Netlist;
use pb_expand::{PbGraph, PbIx};
use sqlite_items::Items;
use std::alloc::{AllocError, Global};

/// For each atom all leaves that can hold it, ascending. Each instance is looked at once for each
/// atom, and most often its kind tells.
pub fn homes_of(
    alloc: Global,
    net: &Netlist,
    graph: &PbGraph,
    atoms: &[u32],
) -> Result<Items<Items<PbIx>>, AllocError>
    requires there { (number : ℕ) → Has atoms.now number → number < length net.now.atoms }
    ensures { IfOk result (AreHomes graph.now net.now.atoms atoms.now) }
{
    let mut homes = Vec::with_capacity(alloc, atoms.len())?;
    for number in atoms {
        homes.push(leaves_for(alloc, net, graph, *number)?)?;
    }
    Ok(Items::from_vec(homes))
}

/// All leaves that can hold an atom, ascending.
fn leaves_for(
    alloc: Global,
    net: &Netlist,
    graph: &PbGraph,
    atom: u32,
) -> Result<Items<PbIx>, AllocError>
    requires { atom < length net.now.atoms }
    ensures { IfOk result (IsLeafList graph.now net.now.atoms atom) }
{
    let mut leaves = Vec::new(alloc);
    for number in 0..graph.pbs() {
        if can_hold(net, atom, graph, PbIx(number)) {
            leaves.push(PbIx(number))?;
        }
    }
    Ok(Items::from_vec(leaves))
}
