ghost use Rattle.prog_text.specs.Plain.{HasPlainNames};
ghost use Rattle.real_lines.specs.Laws.{SpellsOneThing, LacksNothingSpelled, LacksInOneWay};

use name_laws::names_are_one;
use pb_expand::PbGraph;
use prog_text::one_division;

/// The laws of the lines, where the names of the block type are plain and those of the atoms and of
/// the nets differ: a line spells one thing at most, and then lacks nothing, and else it lacks one
/// thing. It does nothing.
pub fn laws_of_lines(graph: &PbGraph)
    ensures one { HasPlainNames graph.now.root → SpellsOneThing graph.now }
    ensures spelled { HasPlainNames graph.now.root → LacksNothingSpelled graph.now }
    ensures lacks { HasPlainNames graph.now.root → LacksInOneWay graph.now }
{
    names_are_one(graph);
    prog_text::laws_of_lines(graph);
    one_division();
}
