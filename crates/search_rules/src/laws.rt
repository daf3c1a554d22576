ghost use Rattle.std.specs.Prelude.{List};
ghost use Rattle.task_types.specs.declared.task.Task.{Task};
ghost use Rattle.task_types.specs.declared.decision.Decision.{Decision};
ghost use Rattle.task_types.specs.Nets.{NetSaid};
ghost use Rattle.task_types.specs.Tidy.{HasHope};
ghost use Rattle.search_rules.specs.Closing.{IsHopeful};

use pb_expand::PbGraph;

/// A law of searches, for callers' proofs: where each active need has a way, each atom a leaf of its
/// own, and the nets' first needs ways of their own, no leaf of a tree closes the node. It does
/// nothing.
pub fn hope_law(graph: &PbGraph)
    ensures { (n : NetSaid) (t : Task) (made : List Decision) → IsHopeful graph.now n t made
        → HasHope graph.now n t made }
{
    graph.law();
}
