ghost use Rattle.std.specs.Prelude.{◌≡◌, IfOk, length};
ghost use Rattle.tree_steps.specs.Owing.{IsPath};
ghost use Rattle.task_reach.specs.Valid.{IsTaskOf};
ghost use Rattle.search_rules.specs.Reading.{IsRealOf};
ghost use Rattle.search_real.specs.Placed.{AreAtHome};
ghost use Rattle.search_real.specs.Entered.{HasRightEntries};

use crate::entries::entries_of;
use crate::homes::homes_of;
use crate::prog::prog_of;
use pb_expand::PbGraph;
use search_free::held_law;
use std::alloc::{AllocError, Global};
use task_trail::Trail;
use task_types::{Real, Task};

/// The realisation that was decided on a path where each atom has its home. Goes once over the
/// instances, the edges and the pins of the graph.
pub fn real_of(
    alloc: Global,
    graph: &PbGraph,
    task: &Task,
    trail: &Trail,
) -> Result<Real, AllocError>
    requires task { IsTaskOf graph.now task.now }
    requires entries { HasRightEntries graph.now task.now }
    requires instances { trail.now.instances ≡ length graph.now.instances }
    requires pins { trail.now.pins ≡ length graph.now.pins }
    requires path { IsPath graph.now task.now trail.now.made }
    requires homes { AreAtHome task.now trail.now.made }
    ensures { IfOk result (IsRealOf graph.now task.now trail.now.made) }
{
    held_law(graph);
    let prog = prog_of(alloc, graph, trail)?;
    let homes = homes_of(alloc, graph, task, trail)?;
    let entries = entries_of(alloc, graph, task, trail)?;
    Ok(Real {
        prog,
        homes,
        entries,
    })
}
