ghost use Rattle.prog_text.specs.Plain.{HasPlainNames};
ghost use Rattle.tree_lines.specs.Laws.{SpellsOneNode};

use name_laws::names_are_one;
use pb_expand::PbGraph;

/// A law of the lines, for callers' proofs: where the names of the block type are plain and those
/// of the atoms differ, a line spells at most one node. It does nothing.
pub fn one_node(graph: &PbGraph)
    ensures { HasPlainNames graph.now.root → SpellsOneNode graph.now }
{
    graph.one_owner();
    names_are_one(graph);
}
