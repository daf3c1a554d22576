ghost use Rattle.std.specs.Prelude.{◌≡◌, ◌<◌, ◌++◌, ◌↔◌, ℕ, All, IfOk, OnOk, length, map};
ghost use Rattle.vtr_base.specs.Lists.{Has};
ghost use Rattle.list_laws.specs.Orders.{Once};
ghost use Rattle.prog_map.specs.declared.choice.LSite.{LSite};
ghost use Rattle.prog_map.specs.Leaves.{kind_at};
ghost use Rattle.prog_map.specs.Live.{IsSiteOf};
ghost use Rattle.prog_map.specs.Above.{StandTogether};
ghost use Rattle.prog_map.specs.Order.{site_order, own_sites, end_site};
ghost use Rattle.prog_map.specs.Tables.{IsOrderOf};
ghost use Rattle.prog_map.specs.Levels.{sites_under, mode_sites};

use crate::LSite;
use crate::busy::ascending;
use crate::order::Order;
use arch_types::AtomKind;
use pb_expand::{EdgeIx, PbGraph, PbIx, PbKind};
use sqlite_items::Items;
use std::alloc::{AllocError, Global};

/// The sites of a block type in their order: of an instance its mode, and then mode by mode the
/// pins in that mode, by the first edge into each, and the instances in it with what is below them;
/// of a leaf its use, and then what it holds if it is a LUT. It has exactly the sites, each once,
/// and sites under one choice stand together.
pub fn sites_of(alloc: Global, graph: &PbGraph) -> Result<Items<LSite>, AllocError>
    ensures order { IfOk result (λ sites. sites ≡ site_order graph.now) }
    ensures exact { IfOk result (λ sites. (s : LSite) → Has sites s ↔ IsSiteOf graph.now s) }
    ensures once { IfOk result (λ sites. Once sites) }
    ensures together { IfOk result (λ sites. StandTogether graph.now sites) }
{
    graph.law();
    let order = Order::new(alloc, graph)?;
    let mut sites = Items::new(alloc);
    push_under(alloc, &mut sites, graph, &order, PbIx(0), graph.pbs())?;
    Ok(sites)
}

/// Adds the sites of an instance and of those below it, so many levels deep. Of its modes it visits
/// those in which something stands.
#[cycle(under)]
fn push_under(
    alloc: Global,
    sites: &mut Items<LSite>,
    graph: &PbGraph,
    order: &Order,
    pb: PbIx,
    levels: u32,
) -> Result<(), AllocError>
    requires inside { pb.0 < length graph.now.instances }
    requires order { IsOrderOf graph.now order.now }
    ensures { OnOk result (sites.new ≡ sites.old ++ sites_under graph.now levels pb.0) }
{
    if levels == 0 {
        return Ok(());
    }
    graph.law();
    push_own(sites, graph, pb)?;
    let modes = ascending(alloc, order.busy.group(pb.0))?;
    for mode in &modes {
        push_mode(alloc, sites, graph, order, pb, *mode, levels - 1)?;
    }
    Ok(())
}

/// Adds the pins in a mode of an instance, and the sites of the instances in it.
#[cycle(under)]
fn push_mode(
    alloc: Global,
    sites: &mut Items<LSite>,
    graph: &PbGraph,
    order: &Order,
    pb: PbIx,
    mode: u32,
    levels: u32,
) -> Result<(), AllocError>
    requires order { IsOrderOf graph.now order.now }
    ensures { OnOk result (sites.new ≡ sites.old ++ mode_sites graph.now
        (λ kid. sites_under graph.now levels kid) pb.0 mode) }
{
    push_ends(sites, graph, order.firsts.of(pb, mode), mode)?;
    for kid in order.kids.of(pb, mode) {
        push_under(alloc, sites, graph, order, PbIx(*kid), levels)?;
    }
    Ok(())
}

/// Adds the sites of an instance itself.
fn push_own(sites: &mut Items<LSite>, graph: &PbGraph, pb: PbIx) -> Result<(), AllocError>
    requires { pb.0 < length graph.now.instances }
    ensures { OnOk result (sites.new ≡ sites.old ++ own_sites pb.0 (kind_at graph.now pb.0)) }
{
    match graph.kind(pb) {
        PbKind::Modes(_) => {
            sites.push(LSite::Mode(pb))?;
        }
        PbKind::Leaf(AtomKind::Lut) => {
            sites.push(LSite::Used(pb))?;
            sites.push(LSite::Lut(pb))?;
        }
        PbKind::Leaf(_) => {
            sites.push(LSite::Used(pb))?;
        }
    }
    Ok(())
}

/// Adds the pins into which these edges lead, in a mode.
fn push_ends(
    sites: &mut Items<LSite>,
    graph: &PbGraph,
    edges: &[u32],
    mode: u32,
) -> Result<(), AllocError>
    requires { All (λ edge. edge < length graph.now.edges) edges.now }
    ensures { OnOk result (sites.new ≡ sites.old ++ map (end_site graph.now mode) edges.now) }
{
    for edge in edges {
        let end = end_in(graph, EdgeIx(*edge), mode);
        sites.push(end)?;
    }
    Ok(())
}

/// The pin into which an edge leads, in a mode.
fn end_in(graph: &PbGraph, edge: EdgeIx, mode: u32) -> LSite
    requires { edge.0 < length graph.now.edges }
    ensures { result ≡ end_site graph.now mode edge.0 }
{
    LSite::Pin(graph.edge(edge).dst, mode)
}
