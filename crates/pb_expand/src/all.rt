ghost use Rattle.std.specs.Prelude.{◌≡◌, ◌++◌, ◌∷◌, [], IfOk, IfErr, OnOk};
ghost use Rattle.pb_expand.specs.All.{AreGraphs, IsFirstRefused, AddsGraph};
ghost use Rattle.pb_expand.specs.Refusals.{IsRefusal};

use crate::{ExpandError, PbGraph, graph_of};
use arch_types::{Arch, PbType};
use std::alloc::Global;
use thiserror::Error;

/// Why the block types of an architecture weren't expanded: the first that can't be, by its number,
/// and why.
#[derive(Debug, Drop, Error)]
#[error("block type {block}: {error}")]
pub struct BlockError {
    pub block: usize,
    pub error: ExpandError,
}

/// All block types of an architecture as graphs, in order.
pub fn expand_all(alloc: Global, arch: &Arch) -> Result<Vec<PbGraph>, BlockError>
    ensures graphs { IfOk result (λ gs. AreGraphs arch.now.blocks gs.items) }
    ensures refused { IfErr result (IsFirstRefused arch.now.blocks) }
{
    let mut graphs = Vec::new(alloc);
    for (block, root) in arch.blocks.as_slice().iter().enumerate() {
        if let Err(error) = push_graph(alloc, &mut graphs, root, block) {
            return Err(BlockError { block, error });
        }
    }
    Ok(graphs)
}

/// Adds the graph of the block type of that number.
fn push_graph(
    alloc: Global,
    graphs: &mut Vec<PbGraph>,
    root: &PbType,
    block: usize,
) -> Result<(), ExpandError>
    ensures added { OnOk result (AddsGraph root.now block graphs.old.items graphs.new.items) }
    ensures refused { IfErr result (IsRefusal root.now) }
{
    if block > u32::MAX as usize {
        return Err(ExpandError::OutOfMemory);
    }
    let graph = graph_of(alloc, root, block as u32)?;
    graph.law();
    graph.keeps();
    graphs.push(graph)?;
    Ok(())
}
