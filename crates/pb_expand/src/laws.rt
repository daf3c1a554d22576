ghost use Rattle.pb_expand.specs.Expansion.{HasOneGraph};

use mode_edges::one_list;

/// A block type has one graph, for callers' proofs: it is known by the tree and the number. It does
/// nothing.
pub fn one_graph()
    ensures { HasOneGraph }
{
    one_list();
}
