ghost use Rattle.std.specs.Prelude.{List};
ghost use Rattle.task_types.specs.declared.task.Task.{Task};
ghost use Rattle.task_types.specs.declared.real.Real.{Real};
ghost use Rattle.task_types.specs.declared.decision.Decision.{Decision};
ghost use Rattle.task_types.specs.Nets.{NetSaid};
ghost use Rattle.task_types.specs.Realises.{Realises};
ghost use Rattle.tree_steps.specs.Owing.{IsPath};
ghost use Rattle.search_rules.specs.Closing.{AreHoused};
ghost use Rattle.search_rules.specs.Left.{IsAllDecided, HasLeafHomes};
ghost use Rattle.search_rules.specs.Settled.{IsReady};
ghost use Rattle.search_rules.specs.Reading.{IsRealOf};

use pb_expand::PbGraph;
use search_free::held_law;

/// The law of what is decided in full, for callers' proofs: where each atom has a leaf of its own
/// that is open to it and nothing is left to decide, each atom has its home, and each need is
/// settled. It does nothing.
pub fn ready_law(graph: &PbGraph)
    ensures { (n : NetSaid) (t : Task) (made : List Decision) → HasLeafHomes graph.now t → AreHoused
        graph.now t made → IsAllDecided graph.now n t made → IsReady graph.now n t made }
{
    graph.law();
}

/// The law of what a search finds, for callers' proofs: the decisions of a path that give each atom
/// its home and settle each need, read as a realisation, realise the task. It does nothing.
pub fn legal_law(graph: &PbGraph)
    ensures { (n : NetSaid) (t : Task) (made : List Decision) (r : Real) → IsPath graph.now t made
        → IsReady graph.now n t made → IsRealOf graph.now t made r → Realises graph.now n t r }
{
    graph.keeps();
    graph.one_owner();
    held_law(graph);
}
