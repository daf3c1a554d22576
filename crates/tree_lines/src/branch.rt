ghost use Rattle.std.specs.Prelude.{◌∷◌, ℕ, MatchOption, codes};
ghost use Rattle.prog_text.specs.Table.{AreNamesOf};
ghost use Rattle.task_types.specs.declared.tree.Var.{Var as Said};
ghost use Rattle.tree_lines.specs.Words.{texts};
ghost use Rattle.tree_lines.specs.Nodes.{SaysBranch};

use crate::numbers::number;
use crate::variable::variable;
use pb_expand::PbGraph;
use prog_text::GraphNames;
use task_types::{Task, Var};

/// The variable and the number of children that the words behind `branch` say.
pub(crate) fn branch(
    words: &[&[u8]],
    graph: &PbGraph,
    task: &Task,
    names: &GraphNames,
) -> Option<(Var, u32)>
    requires { AreNamesOf graph.now names.now }
    ensures { MatchOption result
        ((v : Said) (kids : ℕ) → SaysBranch graph.now task.now
        (codes "branch" ∷ texts words.now) v kids → ⊥)
        (λ r. SaysBranch graph.now task.now (codes "branch" ∷ texts words.now) r.0 r.1) }
{
    let [front @ .., count] = words else {
        return None;
    };
    let kids = number(count)?;
    if kids == 0 {
        return None;
    }
    let var = variable(front, graph, task, names)?;
    Some((var, kids))
}
