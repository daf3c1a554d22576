ghost use Rattle.prog_text.specs.Plain.{HasPlainNames};

use anyhow::{Result, bail};
use arch_types::PbType;
use meta_owners::{OwnerStep, owners};
use pb_expand::{EdgeIx, PbGraph};
use prog_map::sites_of;
use prog_text::{read_prog, write_prog};
use std::alloc::{AllocError, Global};
use std::fmt::Write;
use std::str;

/// Appends the edges of a block type by number: the pins that they join, the interconnect, and the
/// mode of the instance that gives it.
pub fn put_edges(out: &mut String, graph: &PbGraph) -> Result<(), AllocError> {
    for number in 0..graph.edges() {
        let edge = graph.edge(EdgeIx(number));
        write!(out, "edge {} {}", edge.src.0, edge.dst.0)?;
        writeln!(out, " by {} in {} {}", edge.inter, edge.owner.0, edge.mode)?;
    }
    Ok(())
}

/// Appends the sites of a block type, in their order.
pub fn put_sites(alloc: Global, out: &mut String, graph: &PbGraph) -> Result<(), AllocError> {
    let sites = sites_of(alloc, graph)?;
    for site in sites.as_slice() {
        writeln!(out, "{site:?}")?;
    }
    Ok(())
}

/// Appends a programming as it is written, once it has been read from a text. What was written has
/// to be read as it was.
pub fn put_programming(alloc: Global, out: &mut String, graph: &PbGraph, bytes: &[u8]) -> Result<()>
    requires { HasPlainNames graph.now.root }
{
    let prog = read_prog(alloc, bytes, graph)?;
    let mut text = Vec::new(alloc);
    write_prog(&mut text, graph, &prog)?;
    let again = read_prog(alloc, text.as_slice(), graph)?;
    let mut other = Vec::new(alloc);
    write_prog(&mut other, graph, &again)?;
    if text.as_slice() != other.as_slice() {
        bail!("what was written is read as another programming");
    }
    out.push_str(str::from_utf8(text.as_slice())?)?;
    Ok(())
}

/// Appends the walk over the owners of metadata in a block type.
pub fn put_owners(alloc: Global, out: &mut String, block: &PbType) -> Result<(), AllocError> {
    for step in owners(alloc, block)? {
        match step {
            OwnerStep::PbType(part) => writeln!(out, "pb_type {}", part.name.as_str())?,
            OwnerStep::Mode(mode) => writeln!(out, "mode {}", mode.name.as_str())?,
            OwnerStep::Inter(inter) => writeln!(out, "interconnect {}", inter.name.as_str())?,
            OwnerStep::EndOfMode => writeln!(out, "end of the mode")?,
            OwnerStep::EndOfPbType => writeln!(out, "end of the pb_type")?,
        }
    }
    Ok(())
}
