ghost use Rattle.std.specs.Prelude.{◌≡◌, ◌<◌, ◌↔◌, ℕ, IsTrue, IfOk, OnOk, length};
ghost use Rattle.prog_map.specs.Groups.{GetsNumber, grouped};
ghost use Rattle.prog_map.specs.Order.{HasParent, hangs_at, opens_at, starts_at, kids, first_edges};
ghost use Rattle.prog_map.specs.Tables.{IsOrderOf};

use crate::busy::busy_modes;
use crate::groups::{Groups, ModeAt};
use flat_tables::FlatTable;
use pb_expand::{EdgeIx, PbGraph, PbIx};
use std::alloc::{AllocError, Global};

/// What follows an instance in the order of sites, by its modes.
#[derive(Drop)]
pub struct Order {
    /// The instances that hang on it by a mode.
    pub kids: Groups,
    /// Of a mode's edges those that are the first into their ends.
    pub firsts: Groups,
    /// Of each instance the modes in which something stands.
    pub busy: FlatTable<u32>,
}

impl Order {
    /// Goes twice over the instances and twice over the edges of a graph.
    pub fn new(alloc: Global, graph: &PbGraph) -> Result<Order, AllocError>
        ensures { IfOk result (IsOrderOf graph.now) }
    {
        Ok(Order {
            kids: kids_of(alloc, graph)?,
            firsts: firsts_of(alloc, graph)?,
            busy: busy_modes(alloc, graph)?,
        })
    }
}

/// The instances by the mode in which they stand.
fn kids_of(alloc: Global, graph: &PbGraph) -> Result<Groups, AllocError>
    ensures kids { IfOk result (λ groups. (pb mode : ℕ) → grouped groups.numbers pb mode ≡ kids
        graph.now pb mode) }
    ensures parents { OnOk result ((pb : ℕ) → pb < length graph.now.instances → HasParent graph.now
        pb) }
{
    let mut groups = Groups::new(alloc);
    for pb in 0..graph.pbs() {
        push_kid(alloc, &mut groups, graph, PbIx(pb))?;
    }
    Ok(groups)
}

/// Adds an instance to those of the mode in which it stands; the root stands in none.
fn push_kid(alloc: Global, groups: &mut Groups, graph: &PbGraph, pb: PbIx) -> Result<(), AllocError>
    requires { pb.0 < length graph.now.instances }
    ensures number { OnOk result (GetsNumber groups.old.numbers groups.new.numbers
        (hangs_at graph.now pb.0) pb.0) }
    ensures parent { HasParent graph.now pb.0 }
{
    graph.law();
    match graph.address_of(pb) {
        None => Ok(()),
        Some(step) => {
            let at = ModeAt {
                pb: step.parent,
                mode: step.mode,
            };
            groups.push(alloc, at, pb.0)
        }
    }
}

/// The first edges into pins by their mode.
fn firsts_of(alloc: Global, graph: &PbGraph) -> Result<Groups, AllocError>
    ensures { IfOk result (λ groups. (pb mode : ℕ) → grouped groups.numbers pb mode ≡ first_edges
        graph.now pb mode) }
{
    let mut groups = Groups::new(alloc);
    for edge in 0..graph.edges() {
        push_first(alloc, &mut groups, graph, EdgeIx(edge))?;
    }
    Ok(groups)
}

/// Adds an edge to those of its mode, where it is the first into its end.
fn push_first(
    alloc: Global,
    groups: &mut Groups,
    graph: &PbGraph,
    number: EdgeIx,
) -> Result<(), AllocError>
    requires { number.0 < length graph.now.edges }
    ensures { OnOk result (GetsNumber groups.old.numbers groups.new.numbers
        (opens_at graph.now number.0) number.0) }
{
    let edge = graph.edge(number);
    if !begins_with(graph.edges_into(edge.dst, edge.mode), number) {
        return Ok(());
    }
    let at = ModeAt {
        pb: edge.owner,
        mode: edge.mode,
    };
    groups.push(alloc, at, number.0)
}

/// Whether this edge is the first of several.
fn begins_with(edges: &[EdgeIx], number: EdgeIx) -> bool
    ensures { result ≡ starts_at number.0 edges.now }
{
    match edges {
        [] => false,
        [first, ..] => *first == number,
    }
}
