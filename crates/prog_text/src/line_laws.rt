ghost use Rattle.prog_text.specs.LineLaws.{HasOneWords, NamesOneSetting, LacksNothingNamed, LacksOneThing, KeepsProg, AreTexts, HasOneLines};
ghost use Rattle.prog_text.specs.Plain.{HasPlainNames};

use pb_expand::PbGraph;

/// The laws of single lines, where the names of the block type are plain: a line names one site and
/// choice at most, and then lacks nothing, and else it lacks one thing; and setting what a line
/// names leaves a programming of the graph one. It does nothing.
pub fn laws_of_lines(graph: &PbGraph)
    ensures one { HasPlainNames graph.now.root → NamesOneSetting graph.now }
    ensures named { HasPlainNames graph.now.root → LacksNothingNamed graph.now }
    ensures lacks { HasPlainNames graph.now.root → LacksOneThing graph.now }
    ensures kept { KeepsProg graph.now }
{
    graph.law();
    graph.one_owner();
}

/// Where the names of the block type are plain, how its instances and pins are written stands
/// between blanks. It does nothing.
pub fn laws_of_names(graph: &PbGraph)
    ensures { HasPlainNames graph.now.root → AreTexts graph.now }
{
    graph.law();
}

/// The lines of bytes, one by one, are std's lines of them, and a line divides into words in one way
/// at most. It does nothing.
pub fn one_division()
    ensures lines { HasOneLines }
    ensures words { HasOneWords }
{}
