ghost use Rattle.pb_expand.specs.Graph.{Graph};
ghost use Rattle.task_types.specs.declared.task.Task.{Task};
ghost use Rattle.task_rules.specs.Valid.{IsValid};
ghost use Rattle.task_reach.specs.Valid.{IsTaskOf};

use net_types::Netlist;
use task_rules::valid_law;

/// A law of valid tasks, for callers' proofs: the leaves, atoms, nets and pins of which they speak
/// are there. It does nothing.
pub fn there_law(net: &Netlist)
    ensures { (g : Graph) (t : Task) → IsValid g net.now.atoms t → IsTaskOf g t }
{
    net.law();
    valid_law();
}
