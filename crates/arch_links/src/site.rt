ghost use Rattle.std.specs.Prelude.{◌≡◌, ◌↔◌, Some, slice_get, IsTrue, IfOk, IfErr, OnOk, MatchOption};
ghost use Rattle.arch_links.specs.First.{IsFirst, IsOfNone};
ghost use Rattle.arch_links.specs.Links.{HasOtherPorts, sites_in, sites_of};
ghost use Rattle.arch_links.specs.Sites.{AreFitting, site_at, TellsMisfit, TellsFirstMisfit};

use crate::LinkError;
use arch_types::{PbType, Port, Tile};
use std::alloc::Global;
use std::collections::HashSet;

/// Whether the sites of all tiles have their tiles' ports; if not, the first that hasn't is told.
pub(crate) fn check_sites(alloc: Global, blocks: &[PbType], tiles: &[Tile]) -> Result<(), LinkError>
    ensures fit { IfOk result (λ _. IsOfNone (HasOtherPorts blocks.now) (sites_of tiles.now)) }
    ensures misfit { IfErr result (TellsFirstMisfit blocks.now (sites_of tiles.now)) }
{
    for tile in tiles {
        check_tile(alloc, blocks, tile)?;
    }
    Ok(())
}

fn check_tile(alloc: Global, blocks: &[PbType], tile: &Tile) -> Result<(), LinkError>
    ensures fit { IfOk result (λ _. IsOfNone (HasOtherPorts blocks.now) (sites_in tile.now)) }
    ensures misfit { IfErr result (TellsFirstMisfit blocks.now (sites_in tile.now)) }
{
    let mut fitting = HashSet::new(alloc);
    for site in tile.sites.as_slice() {
        check_site(alloc, blocks, tile, *site, &mut fitting)?;
    }
    Ok(())
}

/// Tests one site. What fits is remembered, so that a block type is compared once for a tile.
fn check_site(
    alloc: Global,
    blocks: &[PbType],
    tile: &Tile,
    site: u32,
    fitting: &mut HashSet<u32>,
) -> Result<(), LinkError>
    requires { AreFitting blocks.now tile.now fitting.old }
    ensures kept { OnOk result (AreFitting blocks.now tile.now fitting.new) }
    ensures fits { IfOk result (λ _. HasOtherPorts blocks.now (site_at tile.now site) → ⊥) }
    ensures misfit { IfErr result (TellsMisfit blocks.now (site_at tile.now site)) }
{
    if fitting.contains(&site) {
        return Ok(());
    }
    if let Some(block) = misfit(blocks, tile, site) {
        return Err(LinkError::SitePorts {
            tile: tile.name.copy(alloc)?,
            site: block.name.copy(alloc)?,
        });
    }
    fitting.insert(site)?;
    Ok(())
}

/// The block type of a site, where it has other ports than the tile.
fn misfit<'a>(blocks: &'a [PbType], tile: &Tile, site: u32) -> Option<&'a PbType>
    ensures { MatchOption result (HasOtherPorts blocks.now (site_at tile.now site) → ⊥)
        (λ b. (slice_get blocks.now site ≡ Some b.now) × (b.now.ports ≡ tile.now.ports → ⊥)) }
{
    let block = blocks.get(site as usize)?;
    if are_alike(block.ports.as_slice(), tile.ports.as_slice()) {
        None
    } else {
        Some(block)
    }
}

/// Whether two lists of ports are the same, one by one.
fn are_alike(ports: &[Port], others: &[Port]) -> bool
    ensures { IsTrue result ↔ (ports.now ≡ others.now) }
{
    if ports.len() != others.len() {
        return false;
    }
    for (i, port) in ports.iter().enumerate() {
        if !is_alike(port, &others[i]) {
            return false;
        }
    }
    true
}

fn is_alike(port: &Port, other: &Port) -> bool
    ensures { IsTrue result ↔ (port.now ≡ other.now) }
{
    port.name.is(other.name.as_bytes()) && port.side == other.side && port.width == other.width
}
