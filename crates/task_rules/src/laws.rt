ghost use Rattle.pb_expand.specs.Graph.{Graph};
ghost use Rattle.task_types.specs.declared.task.Task.{Task};
ghost use Rattle.task_types.specs.Nets.{NetSaid};
ghost use Rattle.task_types.specs.Tasks.{HasHomesInOrder, HasNetsOnce};
ghost use Rattle.task_rules.specs.Valid.{IsValid};

/// A law of valid tasks, for callers' proofs: no net stands in one twice, and the leaves that it
/// lists for an atom ascend. It does nothing.
pub fn valid_law()
    ensures nets { (g : Graph) (n : NetSaid) (t : Task) → IsValid g n t → HasNetsOnce t }
    ensures homes { (g : Graph) (n : NetSaid) (t : Task) → IsValid g n t → HasHomesInOrder t }
{}
