ghost use Rattle.std.specs.Prelude.{◌≡◌, ◌∷◌, [], List, length};
ghost use Rattle.vtr_base.specs.Lists.{Has};
ghost use Rattle.task_types.specs.declared.task.Task.{Task};
ghost use Rattle.task_types.specs.declared.tree.Var.{Var};
ghost use Rattle.task_types.specs.declared.decision.Decision.{Decision};
ghost use Rattle.task_types.specs.Options.{options, IsLiveVar, IsUndecided};
ghost use Rattle.task_trail.specs.Decided.{decided_on, IsFree};
ghost use Rattle.task_reach.specs.Valid.{EntersAtRoot};
ghost use Rattle.tree_steps.specs.Owing.{IsPath};
ghost use Rattle.search_free.specs.Held.{AreHeld};

use pb_expand::PbGraph;

/// A law of paths, for callers' proofs: on the trail of a task over the graph each option of a
/// variable that is live and undecided can be decided. It does nothing.
pub fn free_law(graph: &PbGraph)
    ensures { (t : Task) (made : List Decision) (v : Var) (option : Decision) → IsPath graph.now t
        made → IsLiveVar graph.now t made v → IsUndecided made v → Has
        (options graph.now t made v) option → IsFree
        (decided_on made (length graph.now.instances) (length graph.now.pins) (length t.atoms))
        option }
{
    graph.law();
    graph.one_owner();
}

/// The law of how paths grow, for callers' proofs: they begin where nothing is decided, and go on
/// by an option of a variable that is live and undecided. It does nothing.
pub fn path_law(graph: &PbGraph)
    ensures begins { (t : Task) → IsPath graph.now t [] }
    ensures grows { (t : Task) (made : List Decision) (v : Var) (option : Decision) → IsPath
        graph.now t made → IsLiveVar graph.now t made v → IsUndecided made v → Has
        (options graph.now t made v) option → IsPath graph.now t (option ∷ made) }
{
    let _ = graph;
}

/// A law of paths, for callers' proofs: what their decisions speak of is there, is live still, and
/// can be so. It does nothing.
pub fn held_law(graph: &PbGraph)
    ensures { (t : Task) (made : List Decision) → IsPath graph.now t made → AreHeld graph.now t
        made }
{
    graph.lists_ends();
}

/// A law of paths, for callers' proofs: what comes in was decided at input and clock pins of the
/// block alone. It does nothing.
pub fn enters_law(graph: &PbGraph)
    ensures { (t : Task) (made : List Decision) → IsPath graph.now t made → EntersAtRoot graph.now
        made }
{
    held_law(graph);
}
