ghost use Rattle.task_types.specs.declared.task.Task.{Task};
ghost use Rattle.task_types.specs.Nets.{NetSaid};
ghost use Rattle.task_rules.specs.Valid.{IsValid};
ghost use Rattle.search_rules.specs.Left.{HasLeafHomes};

use pb_expand::PbGraph;

/// A law of valid tasks, for callers' proofs: what one lists for its atoms are leaves. It does
/// nothing.
pub fn home_law(graph: &PbGraph)
    ensures { (n : NetSaid) (t : Task) → IsValid graph.now n t → HasLeafHomes graph.now t }
{
    let _ = graph;
}
