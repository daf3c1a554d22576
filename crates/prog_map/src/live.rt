ghost use Rattle.std.specs.Prelude.{◌≡◌, ◌<◌, ◌+◌, ◌↔◌, true, ℕ, Option, IsTrue, IfOk, Some, length, slice_get};
ghost use Rattle.pb_expand.specs.declared.number.Step.{Step};
ghost use Rattle.pb_expand.specs.Graph.{LeadsTo};
ghost use Rattle.prog_map.specs.Choices.{mode_of};
ghost use Rattle.prog_map.specs.Live.{AreLive, AreLiveBefore, IsLiveAt, IsLiveBelow};

use crate::Prog;
use pb_expand::{PbGraph, PbIx};
use std::alloc::{AllocError, Global};

/// For each instance whether it is live, each above it being set to the mode in which it stands.
/// Goes once over the instances.
pub fn live_instances(alloc: Global, graph: &PbGraph, prog: &Prog) -> Result<Vec<bool>, AllocError>
    ensures { IfOk result (λ live. AreLive graph.now (mode_of prog.now) live.items) }
{
    graph.law();
    let mut live = Vec::new(alloc);
    for pb in 0..graph.pbs() {
        let here = is_live_below(graph, prog, live.as_slice(), PbIx(pb));
        live.push(here)?;
    }
    Ok(live)
}

/// Whether an instance is live, where that is known of all before it.
fn is_live_below(graph: &PbGraph, prog: &Prog, live: &[bool], pb: PbIx) -> bool
    requires inside { pb.0 < length graph.now.instances }
    requires before { AreLiveBefore graph.now (mode_of prog.now) live.now pb.0 }
    ensures { IsTrue result ↔ IsLiveAt graph.now (mode_of prog.now) pb.0 }
{
    graph.law();
    match graph.address_of(pb) {
        None => true,
        Some(step) => {
            if !live[step.parent.0 as usize] {
                return false;
            }
            prog.is_set_to(step.parent, step.mode)
        }
    }
}

/// Whether an instance is among those that are live.
pub(crate) fn lives(graph: &PbGraph, prog: &Prog, live: &[bool], pb: PbIx) -> bool
    requires inside { pb.0 < length graph.now.instances }
    requires live { AreLive graph.now (mode_of prog.now) live.now }
    ensures { IsTrue result ↔ IsLiveAt graph.now (mode_of prog.now) pb.0 }
{
    let _ = graph;
    let _ = prog;
    live[pb.0 as usize]
}

/// The laws of what is live, whatever says the mode of each instance: the root is live, and an
/// instance below it exactly where its parent is live and set to the mode in which it stands. It
/// does nothing.
pub fn live_laws(graph: &PbGraph)
    ensures root { (modes : ℕ → Option ℕ) → IsLiveAt graph.now modes 0 }
    ensures below { (modes : ℕ → Option ℕ) (s : Step) (n : ℕ) → LeadsTo graph.now.instances s n
        → IsLiveBelow graph.now modes s n }
{
    graph.law();
}
