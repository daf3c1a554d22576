ghost use Rattle.std.specs.Prelude.{◌≡◌, ◌<◌, ℕ, Some, IfOk, IfErr, MatchOption, length, slice_get};
ghost use Rattle.vtr_base.specs.Lists.{IsFirstPlace};
ghost use Rattle.run_base.specs.Stops.{StopsAfter};
ghost use Rattle.run_inputs.specs.Architectures.{names_of, AreGraphs, NamesBlock, LacksBlock, TellsNoBlock};

use crate::Expanded;
use arch_types::PbType;
use run_base::{Stop, refused};
use std::alloc::Global;

/// The number of the block type of that name, where `file` is the architecture's.
pub fn block_named(
    alloc: Global,
    file: &str,
    expanded: &Expanded,
    name: &str,
) -> Result<usize, Stop>
    requires { AreGraphs expanded.now.architecture expanded.now.graphs.items }
    ensures named { IfOk result (NamesBlock expanded.now.architecture name.now) }
    ensures inside { IfOk result (λ number. number < length expanded.now.graphs.items) }
    ensures stopped { IfErr result (StopsAfter (LacksBlock expanded.now.architecture name.now)
        file.now (TellsNoBlock name.now)) }
{
    match place_of(expanded.architecture.blocks.as_slice(), name) {
        Some(number) => Ok(number),
        None => Err(refused(alloc, file, "5 NoBlockType ", name)),
    }
}

/// The first block type of that name.
fn place_of(blocks: &[PbType], name: &str) -> Option<usize>
    ensures { MatchOption result ((number : ℕ) → slice_get (names_of blocks.now) number ≡ Some
        name.now → ⊥) (IsFirstPlace (names_of blocks.now) name.now) }
{
    for (number, block) in blocks.iter().enumerate() {
        if block.name.is(name.as_bytes()) {
            return Some(number);
        }
    }
    None
}
