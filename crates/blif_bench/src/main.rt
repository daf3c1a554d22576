//! Reads an architecture and a BLIF file over it, and tells how many nets and atoms the netlist
//! has. It is what bench/netlists times.
#![tactic(auto)]

use anyhow::{Context, Result, bail};
use arch_files::read_arch;
use arch_types::Arch;
use blif_net::read_blif;
use std::alloc::Global;
use std::rt::Files;
use std::{env, fs};

fn main(rt: HostRuntime) -> Result<()> {
    let mut args = env::args(&rt)?;
    let _program = args.next();
    let blocks = file(&rt, args.next())?;
    let netlist = file(&rt, args.next())?;
    let told = counts(rt.alloc(), blocks.as_slice(), netlist.as_slice())?;
    println!(rt; "{told}")?;
    Ok(())
}

/// The bytes of the file that a word of the command line names.
fn file<R: Files + AllocGlobal>(rt: &R, word: Option<String>) -> Result<Vec<u8>> {
    let Some(path) = word else {
        bail!("give an architecture and a netlist");
    };
    fs::read(rt, path.as_str()).context(format_args!("reading {path}"))
}

/// What is told of a netlist for an architecture.
fn counts(alloc: Global, blocks: &[u8], netlist: &[u8]) -> Result<String> {
    let arch = architecture(alloc, blocks)?;
    let netlist = read_blif(alloc, netlist, &arch)?;
    let (nets, atoms) = (netlist.nets().count(), netlist.atoms().len());
    Ok(format!(in alloc; "{nets} nets, {atoms} atoms")?)
}

/// The architecture that the bytes of a file say.
fn architecture(alloc: Global, bytes: &[u8]) -> Result<Arch> {
    if bytes.len() > u32::MAX as usize {
        bail!("the architecture is too long");
    }
    Ok(read_arch(alloc, bytes)?)
}
