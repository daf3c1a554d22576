ghost use Rattle.prog_text.specs.Plain.{HasPlainNames};
ghost use Rattle.name_laws.specs.Laws.{TellsOneInstance, TellsOnePin, TellsOneMode, AreWords};

use pb_expand::PbGraph;

/// Where the names of the block type are plain, no two instances, pins, or modes of an instance are
/// written alike, and what instances and pins are written as has no white space. It does nothing.
pub fn names_are_one(graph: &PbGraph)
    ensures instance { HasPlainNames graph.now.root → TellsOneInstance graph.now }
    ensures pin { HasPlainNames graph.now.root → TellsOnePin graph.now }
    ensures mode { HasPlainNames graph.now.root → TellsOneMode graph.now }
    ensures words { HasPlainNames graph.now.root → AreWords graph.now }
{
    graph.law();
}
