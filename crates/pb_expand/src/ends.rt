ghost use Rattle.std.specs.Prelude.{◌≡◌, ◌≤◌, ◌<◌, ℕ, Some, IfOk, length, slice_get};
ghost use Rattle.flat_tables.specs.Groups.{groups_of};
ghost use Rattle.pb_expand.specs.declared.number.Edge.{Edge};
ghost use Rattle.pb_expand.specs.declared.number.EdgeIx.{EdgeIx};
ghost use Rattle.pb_expand.specs.Ends.{pairs_from};

use crate::{Edge, EdgeIx};
use flat_tables::FlatTable;
use std::alloc::{AllocError, Global};

/// The edges by the pin into which they lead, of so many pins.
pub(crate) fn edges_by_end(
    alloc: Global,
    edges: &[Edge],
    pins: u32,
) -> Result<FlatTable<EdgeIx>, AllocError>
    requires few { length edges.now ≤ 4194304 }
    requires inside { (k : ℕ) (e : Edge) → slice_get edges.now k ≡ Some e → e.dst.0 < pins }
    ensures { IfOk result (λ table. table ≡ groups_of (pairs_from (λ e. e.dst.0) 0 edges.now)
        pins) }
{
    let mut pairs = Vec::with_capacity(alloc, edges.len())?;
    for (number, edge) in edges.iter().enumerate() {
        pairs.push((edge.dst.0, EdgeIx(number as u32)))?;
    }
    FlatTable::from_pairs(alloc, pairs.as_slice(), pins)
}

/// The edges by the pin out of which they lead, of so many pins.
pub(crate) fn edges_by_source(
    alloc: Global,
    edges: &[Edge],
    pins: u32,
) -> Result<FlatTable<EdgeIx>, AllocError>
    requires few { length edges.now ≤ 4194304 }
    requires inside { (k : ℕ) (e : Edge) → slice_get edges.now k ≡ Some e → e.src.0 < pins }
    ensures { IfOk result (λ table. table ≡ groups_of (pairs_from (λ e. e.src.0) 0 edges.now)
        pins) }
{
    let mut pairs = Vec::with_capacity(alloc, edges.len())?;
    for (number, edge) in edges.iter().enumerate() {
        pairs.push((edge.src.0, EdgeIx(number as u32)))?;
    }
    FlatTable::from_pairs(alloc, pairs.as_slice(), pins)
}

/// How many of a group of edges are of modes before that one, where their modes don't fall.
pub(crate) fn edges_before(edges: &[Edge], group: &[EdgeIx], mode: u64) -> usize
    requires inside { (k : ℕ) (e : EdgeIx) → slice_get group.now k ≡ Some e → e.0 < length
        edges.now }
    requires ordered { (i j : ℕ) (a b : EdgeIx) (e f : Edge) → i < j → slice_get group.now i ≡ Some
        a → slice_get group.now j ≡ Some b
        → slice_get edges.now a.0 ≡ Some e → slice_get edges.now b.0 ≡ Some f → e.mode ≤ f.mode }
    ensures within { result ≤ length group.now }
    ensures before { (k : ℕ) (a : EdgeIx) (e : Edge) → k < result → slice_get group.now k ≡ Some a
        → slice_get edges.now a.0 ≡ Some e → e.mode < mode }
    ensures behind { (k : ℕ) (a : EdgeIx) (e : Edge) → result ≤ k → slice_get group.now k ≡ Some a
        → slice_get edges.now a.0 ≡ Some e → mode ≤ e.mode }
{
    let mut low = 0;
    let mut high = group.len();
    while low < high {
        let middle = low + (high - low) / 2;
        if (edges[group[middle].0 as usize].mode as u64) < mode {
            low = middle + 1;
        } else {
            high = middle;
        }
    }
    low
}
