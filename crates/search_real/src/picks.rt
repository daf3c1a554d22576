ghost use Rattle.std.specs.Prelude.{◌≡◌, ◌<◌, ◌+◌, ◌↔◌, Some, IsTrue, OnOk, length};
ghost use Rattle.search_real.specs.Said.{Says};

use pb_expand::{Edge, EdgeIx, PbGraph};
use prog_map::{Prog, setting_laws};
use std::alloc::AllocError;
use task_trail::Trail;

/// Lets pins take the edges that they were decided to.
pub(crate) fn put_picks(graph: &PbGraph, trail: &Trail, prog: &mut Prog) -> Result<(), AllocError>
    requires pins { trail.now.pins ≡ length graph.now.pins }
    requires before { Says graph.now trail.now.made prog.old (length graph.now.instances)
        (length graph.now.instances)
        (length graph.now.instances) 0 }
    ensures { OnOk result (Says graph.now trail.now.made prog.new (length graph.now.instances)
        (length graph.now.instances)
        (length graph.now.instances)
        (length graph.now.edges)) }
{
    for edge in 0..graph.edges() {
        put_pick(graph, trail, EdgeIx(edge), prog)?;
    }
    Ok(())
}

/// Lets the pin at the end of one edge take it, where that was decided.
fn put_pick(
    graph: &PbGraph,
    trail: &Trail,
    number: EdgeIx,
    prog: &mut Prog,
) -> Result<(), AllocError>
    requires pins { trail.now.pins ≡ length graph.now.pins }
    requires inside { number.0 < length graph.now.edges }
    requires before { Says graph.now trail.now.made prog.old (length graph.now.instances)
        (length graph.now.instances)
        (length graph.now.instances)
        number.0 }
    ensures { OnOk result (Says graph.now trail.now.made prog.new (length graph.now.instances)
        (length graph.now.instances)
        (length graph.now.instances)
        (number.0 + 1)) }
{
    setting_laws();
    let Edge { dst, mode, .. } = graph.edge(number);
    if is_decided(trail.edge_in(dst, mode), number) {
        return prog.set_edge(dst, mode, number);
    }
    Ok(())
}

/// Whether it was decided that a pin takes that edge.
fn is_decided(decided: Option<Option<EdgeIx>>, edge: EdgeIx) -> bool
    ensures { IsTrue result ↔ (decided ≡ Some (Some edge)) }
{
    match decided {
        None | Some(None) => false,
        Some(Some(decided)) => decided.0 == edge.0,
    }
}
