ghost use Rattle.std.specs.Prelude.{◌≡◌, ◌<◌, ◌↔◌, ◌⊎◌, ℕ, Some, None, IsTrue, length};
ghost use Rattle.task_types.specs.declared.decision.Occupant.TheVariants.{Wire};
ghost use Rattle.task_open.specs.Steps.{MayTake, MayPass};

use pb_expand::{EdgeIx, PbGraph, PbIx};
use task_trail::{Trail, is_open};
use task_types::Occupant;

/// Whether the pin into which an edge leads may take it: no decision excludes the edge's owner and
/// mode, nor is another edge or none decided for the pin.
pub fn may_take(graph: &PbGraph, trail: &Trail, edge: EdgeIx) -> bool
    requires inside { edge.0 < length graph.now.edges }
    requires instances { trail.now.instances ≡ length graph.now.instances }
    requires pins { trail.now.pins ≡ length graph.now.pins }
    ensures { IsTrue result ↔ MayTake graph.now trail.now.made edge.0 }
{
    let here = graph.edge(edge);
    if !fits_mode(trail.mode_in(here.owner), here.mode) {
        return false;
    }
    if !fits_edge(trail.edge_in(here.dst, here.mode), edge) {
        return false;
    }
    is_open(graph, trail, here.owner)
}

/// Whether a leaf may be used to pass an input on, as far as was decided.
pub fn may_pass(graph: &PbGraph, trail: &Trail, leaf: PbIx, input: u32) -> bool
    requires inside { leaf.0 < length graph.now.instances }
    requires instances { trail.now.instances ≡ length graph.now.instances }
    ensures { IsTrue result ↔ MayPass graph.now trail.now.made leaf.0 input }
{
    if !fits_wire(trail.occupant_in(leaf), input) {
        return false;
    }
    is_open(graph, trail, leaf)
}

/// Whether what was decided of an owner leaves that mode open.
fn fits_mode(decided: Option<u32>, mode: u32) -> bool
    ensures { IsTrue result ↔ ((m : ℕ) → decided ≡ Some m → m ≡ mode) }
{
    match decided {
        None => true,
        Some(decided) => decided == mode,
    }
}

/// Whether what was decided of a pin leaves that edge open.
fn fits_edge(decided: Option<Option<EdgeIx>>, edge: EdgeIx) -> bool
    ensures { IsTrue result ↔ ((decided ≡ None) ⊎ (decided ≡ Some (Some edge))) }
{
    match decided {
        None => true,
        Some(None) => false,
        Some(Some(decided)) => decided.0 == edge.0,
    }
}

/// Whether what was decided of a leaf leaves it open that it passes that input on.
fn fits_wire(decided: Option<Occupant>, input: u32) -> bool
    ensures { IsTrue result ↔ ((decided ≡ None) ⊎ (decided ≡ Some (Wire input))) }
{
    match decided {
        None => true,
        Some(Occupant::Wire(decided)) => decided == input,
        Some(Occupant::Nobody) => false,
        Some(Occupant::Atom(_)) => false,
    }
}
