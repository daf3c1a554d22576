ghost use Rattle.std.specs.Prelude.{◌≡◌, ◌<◌, ◌-◌, ◌^◌, length, IfOk, All};
ghost use Rattle.vtr_base.specs.Lists.{Has};
ghost use Rattle.rr_wires.specs.Tables.{end_of, HasLists, EndsBelow};

use crate::types::{End, OwnedEdge, REdge, REdgeIx, WireIx};
use flat_tables::FlatTable;
use std::alloc::{AllocError, Global};

/// For each wire the pairs that have it as this end.
pub(crate) fn lists_by(
    alloc: Global,
    edges: &[OwnedEdge],
    end: End,
    wires: u32,
) -> Result<FlatTable<REdgeIx>, AllocError>
    requires ends { EndsBelow end wires edges.now }
    requires few { length edges.now < 2 ^ 32 - 1 }
    ensures { IfOk result (HasLists edges.now end wires) }
{
    let mut pairs = Vec::with_capacity(alloc, edges.len())?;
    for (number, edge) in edges.iter().enumerate() {
        let number = number as u32;
        pairs.push((wire_at(edge.redge, end).0, REdgeIx(number)))?;
    }
    Ok(FlatTable::from_pairs(alloc, &pairs, wires)?)
}

/// The wire at this end.
fn wire_at(redge: REdge, end: End) -> WireIx
    ensures { result ≡ end_of end redge }
{
    match end {
        End::Src => redge.src,
        End::Dst => redge.dst,
    }
}
