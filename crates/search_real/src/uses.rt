ghost use Rattle.std.specs.Prelude.{◌≡◌, ◌<◌, ◌+◌, OnOk, length};
ghost use Rattle.search_rules.specs.Reading.{is_taken};
ghost use Rattle.search_real.specs.Said.{Says};

use pb_expand::{PbGraph, PbIx};
use prog_map::{LutChoice, Prog, setting_laws};
use std::alloc::AllocError;
use task_trail::Trail;
use task_types::Occupant;

/// Uses the leaves that were decided to be of use.
pub(crate) fn put_uses(graph: &PbGraph, trail: &Trail, prog: &mut Prog) -> Result<(), AllocError>
    requires instances { trail.now.instances ≡ length graph.now.instances }
    requires before { Says graph.now trail.now.made prog.old (length graph.now.instances) 0 0 0 }
    ensures { OnOk result (Says graph.now trail.now.made prog.new (length graph.now.instances)
        (length graph.now.instances) 0 0) }
{
    for leaf in 0..graph.pbs() {
        put_use(graph, trail, PbIx(leaf), prog)?;
    }
    Ok(())
}

/// Uses one leaf, where it was decided to be of use.
fn put_use(graph: &PbGraph, trail: &Trail, leaf: PbIx, prog: &mut Prog) -> Result<(), AllocError>
    requires inside { leaf.0 < trail.now.instances }
    requires before { Says graph.now trail.now.made prog.old (length graph.now.instances) leaf.0 0
        0 }
    ensures { OnOk result (Says graph.now trail.now.made prog.new (length graph.now.instances)
        (leaf.0 + 1) 0 0) }
{
    let _ = graph;
    setting_laws();
    if is_taken(trail.occupant_in(leaf)) {
        return prog.set_used(leaf);
    }
    Ok(())
}

/// Whether a leaf that was decided to be used so is of use.
fn is_taken(occupant: Option<Occupant>) -> bool
    ensures { result ≡ is_taken occupant }
{
    match occupant {
        None | Some(Occupant::Nobody) => false,
        Some(Occupant::Atom(_)) | Some(Occupant::Wire(_)) => true,
    }
}

/// Lets LUTs pass on the inputs that they were decided to.
pub(crate) fn put_wires(graph: &PbGraph, trail: &Trail, prog: &mut Prog) -> Result<(), AllocError>
    requires instances { trail.now.instances ≡ length graph.now.instances }
    requires before { Says graph.now trail.now.made prog.old (length graph.now.instances)
        (length graph.now.instances) 0 0 }
    ensures { OnOk result (Says graph.now trail.now.made prog.new (length graph.now.instances)
        (length graph.now.instances)
        (length graph.now.instances) 0) }
{
    for leaf in 0..graph.pbs() {
        put_wire(graph, trail, PbIx(leaf), prog)?;
    }
    Ok(())
}

/// Lets one LUT pass on the input that it was decided to, if any.
fn put_wire(graph: &PbGraph, trail: &Trail, leaf: PbIx, prog: &mut Prog) -> Result<(), AllocError>
    requires inside { leaf.0 < trail.now.instances }
    requires before { Says graph.now trail.now.made prog.old (length graph.now.instances)
        (length graph.now.instances) leaf.0 0 }
    ensures { OnOk result (Says graph.now trail.now.made prog.new (length graph.now.instances)
        (length graph.now.instances)
        (leaf.0 + 1) 0) }
{
    let _ = graph;
    setting_laws();
    match trail.occupant_in(leaf) {
        None | Some(Occupant::Nobody) | Some(Occupant::Atom(_)) => Ok(()),
        Some(Occupant::Wire(input)) => prog.set_lut(leaf, LutChoice::Wire(input)),
    }
}
