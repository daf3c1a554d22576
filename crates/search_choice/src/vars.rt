ghost use Rattle.std.specs.Prelude.{◌≡◌, ◌↔◌, IfSome, IfNone, IsTrue, length};
ghost use Rattle.task_types.specs.Nets.{NetSaid};
ghost use Rattle.task_types.specs.Tidy.{AreModesDecided};
ghost use Rattle.task_options.specs.Choosing.{IsVarInside};
ghost use Rattle.search_rules.specs.Left.{IsNextVar, AreLeavesDecided};
ghost use Rattle.search_choice.specs.Opens.{IsOpenVar};

use pb_expand::{PbGraph, PbIx};
use task_options::{is_live_var, is_undecided};
use task_trail::Trail;
use task_types::{Task, Var};

/// Whether a variable is live, and nothing is decided of it.
pub(crate) fn is_open_var(graph: &PbGraph, task: &Task, trail: &Trail, var: Var) -> bool
    requires instances { trail.now.instances ≡ length graph.now.instances }
    requires pins { trail.now.pins ≡ length graph.now.pins }
    requires inside { IsVarInside graph.now var }
    ensures { IsTrue result ↔ IsOpenVar graph.now task.now trail.now.made var }
{
    if !is_undecided(graph, trail, var) {
        return false;
    }
    is_live_var(graph, task, trail, var)
}

/// The mode of the first live instance of which it isn't decided.
pub(crate) fn next_mode(graph: &PbGraph, task: &Task, trail: &Trail) -> Option<Var>
    requires instances { trail.now.instances ≡ length graph.now.instances }
    requires pins { trail.now.pins ≡ length graph.now.pins }
    ensures next { IfSome result (λ var. (n : NetSaid) → IsNextVar graph.now n task.now
        trail.now.made var) }
    ensures decided { IfNone result (AreModesDecided graph.now trail.now.made) }
{
    for pb in 0..graph.pbs() {
        let var = Var::Mode(PbIx(pb));
        if is_open_var(graph, task, trail, var) {
            return Some(var);
        }
    }
    None
}

/// The use of the first live leaf of which it isn't decided.
pub(crate) fn next_leaf(graph: &PbGraph, task: &Task, trail: &Trail) -> Option<Var>
    requires instances { trail.now.instances ≡ length graph.now.instances }
    requires pins { trail.now.pins ≡ length graph.now.pins }
    requires modes { AreModesDecided graph.now trail.now.made }
    ensures next { IfSome result (λ var. (n : NetSaid) → IsNextVar graph.now n task.now
        trail.now.made var) }
    ensures decided { IfNone result (AreLeavesDecided graph.now trail.now.made) }
{
    for pb in 0..graph.pbs() {
        let var = Var::Occupant(PbIx(pb));
        if is_open_var(graph, task, trail, var) {
            return Some(var);
        }
    }
    None
}
