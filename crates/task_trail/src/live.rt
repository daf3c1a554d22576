ghost use Rattle.std.specs.Prelude.{◌≡◌, ◌<◌, ◌↔◌, ℕ, Option, Some, IsTrue, length};
ghost use Rattle.pb_expand.specs.declared.number.Step.{Step};
ghost use Rattle.pb_expand.specs.Graph.{LeadsTo};
ghost use Rattle.prog_map.specs.Live.{IsLiveAt};
ghost use Rattle.task_types.specs.Decisions.{mode_in};
ghost use Rattle.task_types.specs.Open.{IsOpen};
ghost use Rattle.task_trail.specs.Decided.{IsOpenBelow};

use crate::Trail;
use pb_expand::{PbGraph, PbIx};
use prog_map::live_laws;

/// Whether an instance is live: each above it is decided to be in the mode in which it stands. It
/// goes up to the root.
pub fn is_live(graph: &PbGraph, trail: &Trail, pb: PbIx) -> bool
    requires inside { pb.0 < length graph.now.instances }
    requires same { trail.now.instances ≡ length graph.now.instances }
    ensures { IsTrue result ↔ IsLiveAt graph.now (mode_in trail.now.made) pb.0 }
{
    graph.law();
    live_laws(graph);
    match graph.address_of(pb) {
        None => true,
        Some(step) => {
            if !trail.is_in_mode(step.parent, step.mode) {
                return false;
            }
            is_live(graph, trail, step.parent)
        }
    }
}

/// Whether an instance is open: no instance above it is decided to be in another mode than the one
/// in which it stands. It goes up to the root.
pub fn is_open(graph: &PbGraph, trail: &Trail, pb: PbIx) -> bool
    requires inside { pb.0 < length graph.now.instances }
    requires same { trail.now.instances ≡ length graph.now.instances }
    ensures { IsTrue result ↔ IsOpen graph.now (mode_in trail.now.made) pb.0 }
{
    graph.law();
    open_laws(graph);
    match graph.address_of(pb) {
        None => true,
        Some(step) => {
            if !may_be(trail.mode_in(step.parent), step.mode) {
                return false;
            }
            is_open(graph, trail, step.parent)
        }
    }
}

/// Whether what was decided of a mode leaves that mode open.
fn may_be(decided: Option<u32>, mode: u32) -> bool
    ensures { IsTrue result ↔ ((m : ℕ) → decided ≡ Some m → m ≡ mode) }
{
    match decided {
        None => true,
        Some(decided) => decided == mode,
    }
}

/// The laws of what is open, whatever says the mode of each instance: the root is open, and an
/// instance below it exactly where its parent is open and not in another mode than the one in which
/// the instance stands. It does nothing.
pub fn open_laws(graph: &PbGraph)
    ensures root { (modes : ℕ → Option ℕ) → IsOpen graph.now modes 0 }
    ensures below { (modes : ℕ → Option ℕ) (s : Step) (n : ℕ) → LeadsTo graph.now.instances s n
        → IsOpenBelow graph.now modes s n }
{
    graph.law();
}
