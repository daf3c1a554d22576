ghost use Rattle.std.specs.Prelude.{◌≡◌, ◌<◌, ℕ, IfSome, IfNone, MatchOption, length};
ghost use Rattle.task_types.specs.Open.{AllowsEdge, AllowsStep};
ghost use Rattle.task_types.specs.Tidy.{AreModesDecided};
ghost use Rattle.search_rules.specs.Left.{AreLeavesDecided};
ghost use Rattle.search_rules.specs.Settled.{TakesStep};
ghost use Rattle.search_choice.specs.Opens.{IsOpenEdge};

use crate::vars::is_open_var;
use pb_expand::{PbGraph, PinIx};
use task_trail::Trail;
use task_types::{Task, Var};

/// The variable that says which edge a pin takes, where it is live and nothing is decided of it. Where
/// there is none, each step back from the pin that may be taken is decided.
pub(crate) fn next_edge(graph: &PbGraph, task: &Task, trail: &Trail, pin: PinIx) -> Option<Var>
    requires inside { pin.0 < length graph.now.pins }
    requires instances { trail.now.instances ≡ length graph.now.instances }
    requires pins { trail.now.pins ≡ length graph.now.pins }
    requires modes { AreModesDecided graph.now trail.now.made }
    requires leaves { AreLeavesDecided graph.now trail.now.made }
    ensures next { IfSome result (IsOpenEdge graph.now task.now trail.now.made pin.0) }
    ensures decided { IfNone result ((q : ℕ) → AllowsStep graph.now trail.now.made pin.0 q → TakesStep
        graph.now trail.now.made pin.0 q) }
{
    graph.law();
    graph.one_owner();
    let first = graph.edges_into_pin(pin).first()?;
    let mode = trail.mode_in(graph.edge(*first).owner)?;
    let var = Var::Edge(pin, mode);
    if !is_open_var(graph, task, trail, var) {
        return None;
    }
    Some(var)
}
