ghost use Rattle.std.specs.Prelude.{◌≡◌, ◌≤◌, ◌<◌, ◌^◌, IfOk, IfErr, length};
ghost use Rattle.arch_files.specs.Files.{SpellsArch, IsRefused};
ghost use Rattle.arch_files.specs.Telling as arch;
ghost use Rattle.run_base.specs.Worlds.{world};
ghost use Rattle.run_base.specs.Stops.{StopsAfter};
ghost use Rattle.run_inputs.specs.Architectures.{Expands, AreGraphs, StopsAtArch, IsRefusedArch, TellsFirstUnexpanded};

use arch_files::read_arch;
use arch_types::Arch;
use pb_expand::{PbGraph, expand_all};
use run_base::{Stop, fetch, refused_by};
use std::alloc::Global;
use vtr_base::Shelf;

/// An architecture with the graphs of its block types, in the order of the file.
#[derive(Drop)]
pub struct Expanded {
    pub architecture: Arch,
    pub graphs: Vec<PbGraph>,
}

/// The architecture of a file: it is fetched and read, and then all its block types are expanded.
pub fn read_expanded<S: Shelf>(alloc: Global, file: &str, shelf: &mut S) -> Result<Expanded, Stop>
    ensures held { S.files shelf.new ≡ S.files shelf.old }
    ensures count { S.faults shelf.old ≤ S.faults shelf.new }
    ensures reads { let w = world (S.files shelf.old) (S.faults shelf.old) (S.faults shelf.new) in
        IfOk result (λ x. Expands w file.now x.architecture x.graphs.items) }
    ensures stopped { let w = world (S.files shelf.old) (S.faults shelf.old) (S.faults shelf.new) in
        IfErr result (StopsAtArch w file.now) }
{
    let bytes = fetch(alloc, file, shelf)?;
    let architecture = architecture_of(alloc, file, bytes.as_slice())?;
    let graphs = graphs_of(alloc, file, &architecture)?;
    Ok(Expanded {
        architecture,
        graphs,
    })
}

/// The architecture that the bytes of its file spell.
fn architecture_of(alloc: Global, file: &str, bytes: &[u8]) -> Result<Arch, Stop>
    requires few { length bytes.now < 2 ^ 32 }
    ensures spells { IfOk result (λ a. SpellsArch bytes.now a) }
    ensures stopped { IfErr result (IsRefusedArch file.now bytes.now) }
{
    match read_arch(alloc, bytes) {
        Ok(architecture) => Ok(architecture),
        Err(error) => Err(refused_by(alloc, file, &error)),
    }
}

/// The graphs of all block types, in the order of the file.
fn graphs_of(alloc: Global, file: &str, architecture: &Arch) -> Result<Vec<PbGraph>, Stop>
    ensures graphs { IfOk result (λ graphs. AreGraphs architecture.now graphs.items) }
    ensures stopped { IfErr result (StopsAfter (Unit {0}) file.now
        (TellsFirstUnexpanded architecture.now)) }
{
    match expand_all(alloc, architecture) {
        Ok(graphs) => Ok(graphs),
        Err(refused) => Err(refused_by(alloc, file, &refused.error)),
    }
}
