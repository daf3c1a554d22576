ghost use Rattle.std.specs.Prelude.{length};
ghost use Rattle.least_cycle.specs.Cycles.{AreBetween};
ghost use Rattle.least_cycle.specs.Walks.{LeadsLevel, IsLeastIfAny};

use crate::lower::lower;

/// The least node from which an edge leads to a node of the same rank.
pub(crate) fn least_level(edges: &[(u32, u32)], ranks: &[u32]) -> Option<u32>
    requires { AreBetween (length ranks.now) edges.now }
    ensures { IsLeastIfAny (LeadsLevel edges.now ranks.now) result }
{
    let mut least: Option<u32> = None;
    for edge in edges {
        if ranks[edge.0 as usize] == ranks[edge.1 as usize] {
            least = Some(lower(least, edge.0));
        }
    }
    least
}
