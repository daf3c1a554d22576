ghost use Rattle.std.specs.Prelude.{◌≡◌, ◌<◌, ◌≤◌, ◌+◌, ℕ, List, [], IfOk, OnOk, Some, length, slice_get};
ghost use Rattle.vtr_base.specs.Lists.{Has};
ghost use Rattle.sparse_set.specs.Sets.{held_on};
ghost use Rattle.task_types.specs.Open.{AllowsStep};
ghost use Rattle.search_crowds.specs.Webs.{IsSpread, AddsEdges};

use pb_expand::{PbGraph, PinIx};
use sparse_set::SparseSet;
use std::alloc::{AllocError, Global};
use task_reach::put_steps;
use task_trail::Trail;

/// The steps back that may be taken from the pins that are reached, or from what is reached from
/// these, all of which are in the set then. It goes on from each pin once; `steps` is given back
/// empty.
pub(crate) fn spread(
    alloc: Global,
    graph: &PbGraph,
    trail: &Trail,
    reached: &mut SparseSet,
    steps: &mut SparseSet,
) -> Result<Vec<(u32, u32)>, AllocError>
    requires instances { trail.now.instances ≡ length graph.now.instances }
    requires pins { trail.now.pins ≡ length graph.now.pins }
    requires room { reached.old.room ≡ length graph.now.pins }
    requires steps { steps.old ≡ held_on [] (length graph.now.pins) }
    ensures spread { IfOk result (λ edges. IsSpread graph.now trail.now.made reached.old.items
        reached.new.items (length reached.new.items) edges.items) }
    ensures room { reached.new.room ≡ reached.old.room }
{
    let mut edges = Vec::new(alloc);
    let mut at = 0;
    while at < reached.as_slice().len() {
        reached.law();
        let pin = PinIx(reached.as_slice()[at]);
        push_steps(graph, trail, pin, reached, steps, &mut edges)?;
        at += 1;
    }
    Ok(edges)
}

/// Adds the steps back from a pin, and where they lead.
fn push_steps(
    graph: &PbGraph,
    trail: &Trail,
    pin: PinIx,
    reached: &mut SparseSet,
    steps: &mut SparseSet,
    edges: &mut Vec<(u32, u32)>,
) -> Result<(), AllocError>
    requires pin { pin.0 < length graph.now.pins }
    requires instances { trail.now.instances ≡ length graph.now.instances }
    requires pins { trail.now.pins ≡ length graph.now.pins }
    requires room { reached.old.room ≡ length graph.now.pins }
    requires steps { steps.old ≡ held_on [] (length graph.now.pins) }
    ensures spread { OnOk result ((at : ℕ) (first : List ℕ) → slice_get reached.old.items at
        ≡ Some pin.0 → IsSpread graph.now trail.now.made first reached.old.items at edges.old.items
        → IsSpread graph.now trail.now.made first reached.new.items (at + 1) edges.new.items) }
    ensures room { reached.new.room ≡ reached.old.room }
    ensures steps { steps.new ≡ steps.old }
{
    put_steps(graph, trail, pin, steps);
    steps.law();
    let pushed = push_edges(pin.0, steps.as_slice(), reached, edges);
    steps.clear();
    pushed
}

/// Adds an edge from a pin to each of some, and adds them to the set.
fn push_edges(
    pin: u32,
    sources: &[u32],
    reached: &mut SparseSet,
    edges: &mut Vec<(u32, u32)>,
) -> Result<(), AllocError>
    requires { (source : ℕ) → Has sources.now source → source < reached.old.room }
    ensures edges { OnOk result (AddsEdges pin sources.now (length sources.now) reached.old.items
        reached.new.items edges.old.items edges.new.items) }
    ensures room { reached.new.room ≡ reached.old.room }
{
    for source in sources {
        edges.push((pin, *source))?;
        reached.insert(*source);
    }
    Ok(())
}
