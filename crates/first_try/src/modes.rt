ghost use Rattle.std.specs.Prelude.{◌≡◌, ◌<◌, length};
ghost use Rattle.task_reach.specs.Valid.{IsTaskOf};
ghost use Rattle.first_try.specs.Paths.{IsOnPath};

use crate::decide::{decide, undo};
use pb_expand::{PbGraph, PbIx, PbKind};
use search_homes::find_homeless;
use std::alloc::{AllocError, Global};
use task_options::is_live_var;
use task_trail::Trail;
use task_types::{Decision, Task, Var};

/// Decides the mode of each live instance: its only one, or the first with which all atoms can still
/// have leaves of their own. Whether each has one.
pub(crate) fn choose_modes(
    alloc: Global,
    graph: &PbGraph,
    task: &Task,
    trail: &mut Trail,
) -> Result<bool, AllocError>
    requires task { IsTaskOf graph.now task.now }
    requires on { IsOnPath graph.now task.now trail.old }
    ensures on { IsOnPath graph.now task.now trail.new }
{
    for pb in 0..graph.pbs() {
        let var = Var::Mode(PbIx(pb));
        if is_live_var(graph, task, trail, var)
            && !choose_mode(alloc, graph, task, trail, PbIx(pb))?
        {
            return Ok(false);
        }
    }
    Ok(true)
}

/// The same of one instance.
fn choose_mode(
    alloc: Global,
    graph: &PbGraph,
    task: &Task,
    trail: &mut Trail,
    pb: PbIx,
) -> Result<bool, AllocError>
    requires task { IsTaskOf graph.now task.now }
    requires inside { pb.0 < length graph.now.instances }
    requires on { IsOnPath graph.now task.now trail.old }
    ensures on { IsOnPath graph.now task.now trail.new }
{
    let count = match graph.kind(pb) {
        PbKind::Leaf(_) => 0,
        PbKind::Modes(count) => count,
    };
    for mode in 0..count {
        if decide(graph, task, trail, Decision::Mode(pb, mode)) {
            if count == 1 || find_homeless(alloc, graph, task, trail)?.is_none() {
                return Ok(true);
            }
            undo(trail);
        }
    }
    Ok(false)
}
