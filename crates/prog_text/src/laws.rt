ghost use Rattle.std.specs.Prelude.{◌≡◌, ℕ, Some, IfOk, IfErr, slice_get};
ghost use Rattle.arch_types.specs.declared.block.PbType.{PbType};
ghost use Rattle.prog_map.specs.Choices.{IsProgOf};
ghost use Rattle.prog_text.specs.Laws.{SpellsOneProg, IsReadWhereSpelled, RefusesInOneWay};
ghost use Rattle.prog_text.specs.Plain.{HasPlainNames};

use crate::{ProgError, read_prog, write_prog};
use arch_types::Arch;
use pb_expand::PbGraph;
use prog_map::Prog;
use std::alloc::Global;

/// The round trip: what a programming is read as when it has been written. It comes back, or memory
/// runs out.
pub fn read_back(alloc: Global, graph: &PbGraph, prog: &Prog) -> Result<Prog, ProgError>
    requires of { IsProgOf graph.now prog.now }
    requires plain { HasPlainNames graph.now.root }
    ensures of { IfOk result (IsProgOf graph.now) }
    ensures same { IfOk result (λ p. p ≡ prog.now) }
    ensures memory { IfErr result (λ e. e ≡ ProgError.OutOfMemory) }
{
    graph.law();
    graph.one_owner();
    let mut text = Vec::new(alloc);
    write_prog(&mut text, graph, prog)?;
    read_prog(alloc, text.as_slice(), graph)
}

/// The laws of the text, where the names of the block type are plain, so that what `read_prog`
/// promises of its answers decides each answer: a text spells at most one programming, one that
/// spells a programming is refused by want of memory alone, and else it is refused in one way. It
/// does nothing.
pub fn laws_of_the_text(graph: &PbGraph)
    ensures one { HasPlainNames graph.now.root → SpellsOneProg graph.now }
    ensures read { HasPlainNames graph.now.root → IsReadWhereSpelled graph.now }
    ensures refused { HasPlainNames graph.now.root → RefusesInOneWay graph.now }
{
    graph.law();
    graph.one_owner();
}

/// The names in each block type of an architecture are plain, so that the laws on the text of
/// programmings hold of its graph. It does nothing.
pub fn plain_names(arch: &Arch)
    ensures { (n : ℕ) (root : PbType) → slice_get arch.now.blocks n ≡ Some root → HasPlainNames
        root }
{
    arch.law();
}
