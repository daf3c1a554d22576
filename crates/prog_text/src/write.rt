ghost use Rattle.std.specs.Prelude.{◌≡◌, ◌++◌, All, OnOk, OnErr, flat_map};
ghost use Rattle.prog_map.specs.Choices.{IsProgOf};
ghost use Rattle.prog_text.specs.Plain.{HasPlainNames};
ghost use Rattle.prog_text.specs.Text.{SpellsProg};
ghost use Rattle.prog_text.specs.Spelling.{IsPart, IsInside, site_text, prog_text};

use crate::line::put_site;
use pb_expand::PbGraph;
use prog_map::{LSite, Prog, sites_of};
use std::alloc::AllocError;

/// Appends a programming of the graph as text, in site order: a line for each site that has a
/// choice, ended by a line feed. An instance has its own site or sites first, and then mode by mode
/// the pins in that mode, by the first edge into each, and the instances in it. Where the names of
/// the block type are plain, the text spells the programming. Where memory runs out, a front of the
/// text was appended.
pub fn write_prog(out: &mut Vec<u8>, graph: &PbGraph, prog: &Prog) -> Result<(), AllocError>
    requires { IsProgOf graph.now prog.now }
    ensures text { OnOk result (out.new.items ≡ out.old.items ++ prog_text graph.now prog.now) }
    ensures part { OnErr result (IsPart out.old.items (prog_text graph.now prog.now)
        out.new.items) }
    ensures spells { OnOk result (HasPlainNames graph.now.root → SpellsProg graph.now
        (prog_text graph.now prog.now) prog.now) }
{
    graph.law();
    let sites = sites_of(*out.allocator(), graph)?;
    write_sites(out, graph, prog, sites.as_slice())
}

/// Appends the lines of these sites.
fn write_sites(
    out: &mut Vec<u8>,
    graph: &PbGraph,
    prog: &Prog,
    sites: &[LSite],
) -> Result<(), AllocError>
    requires inside { All (IsInside graph.now) sites.now }
    requires of { IsProgOf graph.now prog.now }
    ensures text { OnOk result (out.new.items ≡ out.old.items ++ flat_map
        (site_text graph.now prog.now) sites.now) }
    ensures part { OnErr result (IsPart out.old.items
        (flat_map (site_text graph.now prog.now) sites.now) out.new.items) }
{
    for site in sites {
        write_site(out, graph, prog, *site)?;
    }
    Ok(())
}

/// Appends the line of a site, or nothing where the site is off.
fn write_site(
    out: &mut Vec<u8>,
    graph: &PbGraph,
    prog: &Prog,
    site: LSite,
) -> Result<(), AllocError>
    requires inside { IsInside graph.now site }
    requires of { IsProgOf graph.now prog.now }
    ensures text { OnOk result (out.new.items ≡ out.old.items ++ site_text graph.now prog.now
        site) }
    ensures part { OnErr result (IsPart out.old.items (site_text graph.now prog.now site)
        out.new.items) }
{
    if !prog.is_set(site) {
        return Ok(());
    }
    let mut line = Vec::new(*out.allocator());
    put_site(&mut line, graph, prog, site)?;
    out.extend_from_slice(line.as_slice())
}
