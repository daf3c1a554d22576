ghost use Rattle.std.specs.Prelude.{◌≡◌, ◌<◌, ◌+◌, IfOk, OnOk, length};
ghost use Rattle.search_free.specs.Held.{AreHeld};
ghost use Rattle.search_real.specs.Said.{Says};

use crate::picks::put_picks;
use crate::uses::{put_uses, put_wires};
use pb_expand::{PbGraph, PbIx};
use prog_map::{Prog, setting_laws};
use std::alloc::{AllocError, Global};
use task_trail::Trail;

/// The programming that was decided.
pub(crate) fn prog_of(alloc: Global, graph: &PbGraph, trail: &Trail) -> Result<Prog, AllocError>
    requires instances { trail.now.instances ≡ length graph.now.instances }
    requires pins { trail.now.pins ≡ length graph.now.pins }
    ensures { IfOk result (λ prog. Says graph.now trail.now.made prog
        (length graph.now.instances)
        (length graph.now.instances)
        (length graph.now.instances)
        (length graph.now.edges)) }
{
    let mut prog = Prog::empty(alloc, graph)?;
    put_modes(graph, trail, &mut prog)?;
    put_uses(graph, trail, &mut prog)?;
    put_wires(graph, trail, &mut prog)?;
    put_picks(graph, trail, &mut prog)?;
    Ok(prog)
}

/// Sets the modes that were decided.
fn put_modes(graph: &PbGraph, trail: &Trail, prog: &mut Prog) -> Result<(), AllocError>
    requires instances { trail.now.instances ≡ length graph.now.instances }
    requires before { Says graph.now trail.now.made prog.old 0 0 0 0 }
    ensures { OnOk result (Says graph.now trail.now.made prog.new (length graph.now.instances) 0 0
        0) }
{
    for pb in 0..graph.pbs() {
        put_mode(graph, trail, PbIx(pb), prog)?;
    }
    Ok(())
}

/// Sets the mode of one instance, where it was decided.
fn put_mode(graph: &PbGraph, trail: &Trail, pb: PbIx, prog: &mut Prog) -> Result<(), AllocError>
    requires inside { pb.0 < trail.now.instances }
    requires before { Says graph.now trail.now.made prog.old pb.0 0 0 0 }
    ensures { OnOk result (Says graph.now trail.now.made prog.new (pb.0 + 1) 0 0 0) }
{
    let _ = graph;
    setting_laws();
    match trail.mode_in(pb) {
        None => Ok(()),
        Some(mode) => prog.set_mode(pb, mode),
    }
}
