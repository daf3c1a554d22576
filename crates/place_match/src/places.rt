ghost use Rattle.std.specs.Prelude.{◌≡◌, ◌<◌, ◌+◌, ◌^◌, ℕ, All, IfOk, IfErr, None, length, vec_len};
ghost use Rattle.matching.specs.Bipartite.{State, place_of};
ghost use Rattle.place_match.specs.Places.{IsPlaced};
ghost use Rattle.place_match.specs.Answer.{IsRefused, HasNoPlacesAtRefusal};
ghost use Rattle.place_match.specs.Tables.{AreChained, AreChainedLinks, GoByLinks, IsReduced};

use crate::PlaceError;
use crate::chains::Chains;
use crate::flow::{Links, counts_of, flow_of};
use crate::links::links_of;
use crate::numbered::Numbered;
use crate::seats::hand_out;
use matching::Matching;
use std::alloc::{AllocError, Global};

/// A site of its own for each block: the number of its site, block by block. `blocks` and `sites`
/// tell the kind of each, and `fits` the pairs of a block's kind and a site's kind that go
/// together; a pair that is listed twice counts once.
///
/// How many blocks of each kind go on sites of each kind is found first, by searches that mark
/// kinds and not sites; then sites are handed out, and only blocks for which that wasn't enough are
/// searched for one by one. So the time is that of the pairs of a block kind and a site that fits
/// it, and of a few searches through the pairs of kinds.
///
/// # Errors
///
/// `NoRoom` exactly where no placing of all blocks exists, with blocks that outnumber all the sites
/// that fit any of them, and these sites. `OutOfMemory` for want of memory.
pub fn first_places(
    alloc: Global,
    blocks: &[u32],
    sites: &[u32],
    fits: &[(u32, u32)],
) -> Result<Vec<u32>, PlaceError>
    requires few_blocks { length blocks.now + 1 < 2 ^ 32 }
    requires few_sites { length sites.now + 1 < 2 ^ 32 }
    ensures placed { IfOk result (λ places. IsPlaced blocks.now sites.now fits.now places.items) }
    ensures refused { IfErr result (IsRefused blocks.now sites.now fits.now) }
    ensures none { IfErr result (HasNoPlacesAtRefusal blocks.now sites.now fits.now) }
{
    let mut matching = unplaced(alloc, blocks, sites, fits)?;
    match matching.complete(alloc)? {
        None => {
            let places = matching.answer(alloc)?;
            Ok(places)
        }
        Some(stuck) => Err(PlaceError::NoRoom {
            blocks: stuck.lefts,
            sites: stuck.rights,
        }),
    }
}

/// Blocks on the left, a row for each block kind, and the sites on the right that fit it.
fn unplaced(
    alloc: Global,
    blocks: &[u32],
    sites: &[u32],
    fits: &[(u32, u32)],
) -> Result<Matching, AllocError>
    requires few_blocks { length blocks.now + 1 < 2 ^ 32 }
    requires few_sites { length sites.now + 1 < 2 ^ 32 }
    ensures { IfOk result (λ matching. IsReduced blocks.now sites.now fits.now matching.graph) }
{
    let block_kinds = Numbered::of(alloc, blocks)?;
    let site_kinds = Numbered::of(alloc, sites)?;
    let links = links_of(alloc, &block_kinds.kinds, &site_kinds.kinds, fits)?;
    let chains = Chains::new(alloc, site_kinds.numbers, site_kinds.kinds.len())?;
    let pairs = chains.pairs_of(alloc, links.as_slice())?;
    let row_count = block_kinds.kinds.len() as u32;
    let site_count = sites.len() as u32;
    let rows = Vec::from_slice(alloc, &block_kinds.numbers)?;
    let mut matching = Matching::new(alloc, rows, row_count, pairs, site_count)?;
    let kinds = Links::new(
        alloc,
        links.as_slice(),
        block_kinds.kinds.len(),
        chains.first.len(),
    )?;
    begin(alloc, &kinds, &block_kinds.numbers, &chains, &mut matching)?;
    Ok(matching)
}

/// Puts blocks on sites by kinds, as many as there is room for.
fn begin(
    alloc: Global,
    links: &Links,
    blocks: &[u32],
    sites: &Chains,
    matching: &mut Matching,
) -> Result<(), AllocError>
    requires links { AreChainedLinks links.now.by_block.kinds.items links.now.by_block.first.items
        links.now.by_block.next.items
        links.now.by_site.kinds.items links.now.by_site.first.items links.now.by_site.next.items }
    requires blocks { All (λ kind. kind < vec_len links.now.by_block.first) blocks.now }
    requires few_blocks { length blocks.now < 2 ^ 32 }
    requires sites { AreChained sites.now.kinds.items sites.now.first.items sites.now.next.items }
    requires site_kinds { All (λ kind. kind < vec_len sites.now.first) sites.now.kinds.items }
    requires site_count { vec_len sites.now.first ≡ vec_len links.now.by_site.first }
    requires rights { length matching.old.owner ≡ vec_len sites.now.kinds }
    requires few_sites { vec_len sites.now.kinds < 2 ^ 32 }
    requires unplaced { (block : ℕ) → place_of matching.old block ≡ None }
    requires joined { GoByLinks matching.old.graph blocks.now sites.now.kinds.items
        links.now.by_block.kinds.items links.now.by_site.kinds.items }
    ensures { matching.new.graph ≡ matching.old.graph }
{
    let mut room = counts_of(alloc, &sites.kinds, sites.first.len())?;
    let mut amounts = flow_of(alloc, links, blocks, &mut room)?;
    hand_out(links, &mut amounts, blocks, sites, matching)
}
