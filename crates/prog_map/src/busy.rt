ghost use Rattle.std.specs.Prelude.{◌≡◌, ◌<◌, ◌≤◌, ◌++◌, ◌↔◌, ℕ, IfOk, OnOk, length, map};
ghost use Rattle.std.specs.List.Sorted.{IsStrictlyIncreasing};
ghost use Rattle.vtr_base.specs.Lists.{Has};
ghost use Rattle.prog_map.specs.Tables.{AreBusyIn, HasKid, owner_mode};

use flat_tables::FlatTable;
use pb_expand::{EdgeIx, PbGraph, PbIx};
use std::alloc::{AllocError, Global};

/// Of each instance the modes in which an instance hangs on it, or of which it has an edge; a mode
/// as often as there are such. It goes once over the instances and once over the edges.
pub(crate) fn busy_modes(alloc: Global, graph: &PbGraph) -> Result<FlatTable<u32>, AllocError>
    ensures { IfOk result (AreBusyIn graph.now) }
{
    graph.law();
    let mut pairs = kid_pairs(alloc, graph)?;
    push_edge_pairs(&mut pairs, graph)?;
    FlatTable::from_pairs(alloc, pairs.as_slice(), graph.pbs())
}

/// Of each instance but the root the one on which it hangs, and the mode.
fn kid_pairs(alloc: Global, graph: &PbGraph) -> Result<Vec<(u32, u32)>, AllocError>
    ensures each { IfOk result (λ pairs. (pb mode : ℕ) → Has pairs.items (pb, mode)
        ↔ HasKid graph.now pb mode) }
    ensures few { IfOk result (λ pairs. length pairs.items ≤ length graph.now.instances) }
{
    graph.law();
    let mut pairs = Vec::new(alloc);
    for pb in 0..graph.pbs() {
        if let Some(step) = graph.address_of(PbIx(pb)) {
            pairs.push((step.parent.0, step.mode))?;
        }
    }
    Ok(pairs)
}

/// Adds of each edge the instance that has it, and the mode.
fn push_edge_pairs(pairs: &mut Vec<(u32, u32)>, graph: &PbGraph) -> Result<(), AllocError>
    ensures { OnOk result (pairs.new.items ≡ pairs.old.items ++ map owner_mode graph.now.edges) }
{
    for number in 0..graph.edges() {
        let edge = graph.edge(EdgeIx(number));
        pairs.push((edge.owner.0, edge.mode))?;
    }
    Ok(())
}

/// The numbers of a list in ascending order, each once.
pub(crate) fn ascending(alloc: Global, numbers: &[u32]) -> Result<Vec<u32>, AllocError>
    ensures rises { IfOk result (λ sorted. IsStrictlyIncreasing sorted.items) }
    ensures each { IfOk result (λ sorted. (n : ℕ) → Has sorted.items n ↔ Has numbers.now n) }
{
    let mut sorted = Vec::new(alloc);
    sorted.extend_from_slice(numbers)?;
    sorted.sort_unstable();
    sorted.dedup();
    Ok(sorted)
}
