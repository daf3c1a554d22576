ghost use Rattle.std.specs.Prelude.{◌≡◌, ◌++◌, codes, IfOk, OnOk};
ghost use Rattle.std.specs.List.{flat_map};
ghost use Rattle.elem_attrs.specs.Attributes.{attr_of};
ghost use Rattle.arch_build.specs.Said.{inside, within, said_site, said_sub_tile, said_tile};

use crate::part::{copied, count_in};
use crate::places::NamePlaces;
use crate::port::ports_in;
use arch_types::Tile;
use elem_attrs::{has_tag, value_or_empty};
use elem_text::Elem;
use sqlite_items::Items;
use std::alloc::{AllocError, Global};

/// Adds the tiles in an element that is a list of them.
pub(crate) fn push_tiles(
    alloc: Global,
    blocks: &NamePlaces<'_>,
    tiles: &mut Items<Tile>,
    list: &Elem,
) -> Result<(), AllocError>
    ensures { OnOk result (tiles.new ≡ tiles.old ++ within (codes "tiles") (said_tile blocks.now)
        list.now) }
{
    if has_tag(list, b"tiles") {
        for elem in list.kids.as_slice() {
            push_tile(alloc, blocks, tiles, elem)?;
        }
    }
    Ok(())
}

fn push_tile(
    alloc: Global,
    blocks: &NamePlaces<'_>,
    tiles: &mut Items<Tile>,
    elem: &Elem,
) -> Result<(), AllocError>
    ensures { OnOk result (tiles.new ≡ tiles.old ++ said_tile blocks.now elem.now) }
{
    if has_tag(elem, b"tile") {
        for kid in elem.kids.as_slice() {
            push_sub_tile(alloc, blocks, tiles, elem, kid)?;
        }
    }
    Ok(())
}

/// Adds the tile by its `sub_tile`, where the element is one.
fn push_sub_tile(
    alloc: Global,
    blocks: &NamePlaces<'_>,
    tiles: &mut Items<Tile>,
    tile: &Elem,
    elem: &Elem,
) -> Result<(), AllocError>
    ensures { OnOk result (tiles.new ≡ tiles.old ++ said_sub_tile blocks.now
        (attr_of tile.now (codes "name")) elem.now) }
{
    if has_tag(elem, b"sub_tile") {
        let is = Tile {
            name: copied(alloc, tile, b"name")?,
            sub_name: copied(alloc, elem, b"name")?,
            capacity: count_in(elem, b"capacity"),
            sites: sites_in(alloc, blocks, elem)?,
            ports: ports_in(alloc, elem)?,
        };
        tiles.push(is)?;
    }
    Ok(())
}

fn sites_in(alloc: Global, blocks: &NamePlaces<'_>, owner: &Elem) -> Result<Items<u32>, AllocError>
    ensures { IfOk result (λ sites. sites ≡ flat_map
        (within (codes "equivalent_sites") (said_site blocks.now)) (inside owner.now)) }
{
    let mut sites = Items::new(alloc);
    for elem in owner.kids.as_slice() {
        push_sites(blocks, &mut sites, elem)?;
    }
    Ok(sites)
}

fn push_sites(
    blocks: &NamePlaces<'_>,
    sites: &mut Items<u32>,
    elem: &Elem,
) -> Result<(), AllocError>
    ensures { OnOk result (sites.new ≡ sites.old ++ within (codes "equivalent_sites")
        (said_site blocks.now) elem.now) }
{
    if has_tag(elem, b"equivalent_sites") {
        for site in elem.kids.as_slice() {
            push_site(blocks, sites, site)?;
        }
    }
    Ok(())
}

/// Adds a site by the number of its block type.
fn push_site(blocks: &NamePlaces<'_>, sites: &mut Items<u32>, elem: &Elem) -> Result<(), AllocError>
    ensures { OnOk result (sites.new ≡ sites.old ++ said_site blocks.now elem.now) }
{
    if has_tag(elem, b"site") {
        sites.push(blocks.place(value_or_empty(elem, b"pb_type")))?;
    }
    Ok(())
}
