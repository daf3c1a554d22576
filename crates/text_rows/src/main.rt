//! Reads an architecture and a programming, and prints of each block type the walk over the owners
//! of metadata, the edges, the sites, and the programming as it is written. It takes the names of
//! the two files.
#![tactic(auto)]

mod programming;

use anyhow::{Context, Result, bail};
use arch_files::read_arch;
use arch_types::Arch;
use pb_expand::expand_all;
use prog_text::plain_names;
use programming::{put_edges, put_owners, put_programming, put_sites};
use std::alloc::Global;
use std::rt::Files;
use std::{env, fs};

fn main(rt: HostRuntime) -> Result<()> {
    let mut args = env::args(&rt)?;
    let _program = args.next();
    let blocks = file(&rt, args.next())?;
    let programming = file(&rt, args.next())?;
    let mut out = String::new(rt.alloc());
    put_blocks(
        rt.alloc(),
        &mut out,
        blocks.as_slice(),
        programming.as_slice(),
    )?;
    print!(rt; "{out}")?;
    Ok(())
}

/// The bytes of the file that a word of the command line names.
fn file<R: Files + AllocGlobal>(rt: &R, word: Option<String>) -> Result<Vec<u8>> {
    let Some(path) = word else {
        bail!("give an architecture and a programming");
    };
    fs::read(rt, path.as_str()).context(format_args!("reading {path}"))
}

/// Appends what is told of each block type of an architecture.
fn put_blocks(alloc: Global, out: &mut String, bytes: &[u8], programming: &[u8]) -> Result<()> {
    if bytes.len() > u32::MAX as usize {
        bail!("the architecture is too long");
    }
    let arch = read_arch(alloc, bytes)?;
    for block in arch.blocks.as_slice() {
        put_owners(alloc, out, block)?;
    }
    put_graphs(alloc, out, &arch, programming)
}

/// Appends what is told of the graph of each block type.
fn put_graphs(alloc: Global, out: &mut String, arch: &Arch, programming: &[u8]) -> Result<()> {
    plain_names(arch);
    let graphs = expand_all(alloc, arch)?;
    for graph in graphs.iter() {
        put_edges(out, graph)?;
        put_sites(alloc, out, graph)?;
        put_programming(alloc, out, graph, programming)?;
    }
    Ok(())
}
