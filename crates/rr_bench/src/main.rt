//! Reads an architecture and a routing graph file over it, and tells how many locations, wires and
//! pairs of wires the graph has. It is what bench/graphs times.
#![tactic(auto)]

use anyhow::{Context, Result, bail};
use arch_files::read_arch;
use arch_types::Arch;
use rr_files::read_rr;
use std::alloc::Global;
use std::rt::Files;
use std::{env, fs};

fn main(rt: HostRuntime) -> Result<()> {
    let mut args = env::args(&rt)?;
    let _program = args.next();
    let blocks = file(&rt, args.next())?;
    let graph = file(&rt, args.next())?;
    let told = counts(rt.alloc(), blocks.as_slice(), graph.as_slice())?;
    println!(rt; "{told}")?;
    Ok(())
}

/// The bytes of the file that a word of the command line names.
fn file<R: Files + AllocGlobal>(rt: &R, word: Option<String>) -> Result<Vec<u8>> {
    let Some(path) = word else {
        bail!("give an architecture and a routing graph");
    };
    fs::read(rt, path.as_str()).context(format_args!("reading {path}"))
}

/// What is told of a routing graph over an architecture.
fn counts(alloc: Global, blocks: &[u8], graph: &[u8]) -> Result<String> {
    let arch = architecture(alloc, blocks)?;
    let graph = read_rr(alloc, graph, &arch)?;
    let (locs, wires, pairs) = (graph.locs(), graph.wires(), graph.redges());
    Ok(format!(in alloc; "{locs} locations, {wires} wires, {pairs} pairs of wires")?)
}

/// The architecture that the bytes of a file say.
fn architecture(alloc: Global, bytes: &[u8]) -> Result<Arch> {
    if bytes.len() > u32::MAX as usize {
        bail!("the architecture is too long");
    }
    Ok(read_arch(alloc, bytes)?)
}
