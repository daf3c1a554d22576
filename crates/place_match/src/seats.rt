ghost use Rattle.std.specs.Prelude.{◌≡◌, ◌<◌, ◌≤◌, ◌^◌, ℕ, All, IfSome, None, OnOk, length, slice_index, vec_len};
ghost use Rattle.matching.specs.Bipartite.{State, place_of};
ghost use Rattle.place_match.specs.Tables.{AreChained, AreChainedLinks, AreCursors, GoByLinks, IsSeat};

use crate::chains::Chains;
use crate::flow::Links;
use matching::Matching;
use std::alloc::{AllocError, Global};

/// Puts the blocks on free sites, as many of each kind by each link as the amounts say.
pub(crate) fn hand_out(
    links: &Links,
    amounts: &mut [u32],
    blocks: &[u32],
    sites: &Chains,
    matching: &mut Matching,
) -> Result<(), AllocError>
    requires links { AreChainedLinks links.now.by_block.kinds.items links.now.by_block.first.items
        links.now.by_block.next.items
        links.now.by_site.kinds.items links.now.by_site.first.items links.now.by_site.next.items }
    requires amounts { length amounts.old ≡ vec_len links.now.by_block.kinds }
    requires blocks { All (λ kind. kind < vec_len links.now.by_block.first) blocks.now }
    requires few_blocks { length blocks.now < 2 ^ 32 }
    requires sites { AreChained sites.now.kinds.items sites.now.first.items sites.now.next.items }
    requires site_kinds { vec_len sites.now.first ≡ vec_len links.now.by_site.first }
    requires rights { length matching.old.owner ≡ vec_len sites.now.kinds }
    requires few_sites { vec_len sites.now.kinds < 2 ^ 32 }
    requires unplaced { (block : ℕ) → place_of matching.old block ≡ None }
    requires joined { GoByLinks matching.old.graph blocks.now sites.now.kinds.items
        links.now.by_block.kinds.items links.now.by_site.kinds.items }
    ensures { matching.new.graph ≡ matching.old.graph }
{
    let mut link_of = links.by_block.first.clone()?;
    let mut site_of = sites.first.clone()?;
    for (block, kind) in blocks.iter().enumerate() {
        let kind = *kind as usize;
        let seat = next_seat(links, amounts, sites, &mut link_of, &mut site_of, kind);
        if let Some(site) = seat {
            if matching.owner_of(site as u32).is_none() {
                matching.put(block as u32, site as u32);
            }
        }
    }
    Ok(())
}

/// The next site for a block of a kind, by the first link on which one more block is to go.
fn next_seat(
    links: &Links,
    amounts: &mut [u32],
    sites: &Chains,
    link_of: &mut [usize],
    site_of: &mut [usize],
    kind: usize,
) -> Option<usize>
    requires links { AreChainedLinks links.now.by_block.kinds.items links.now.by_block.first.items
        links.now.by_block.next.items
        links.now.by_site.kinds.items links.now.by_site.first.items links.now.by_site.next.items }
    requires amounts { length amounts.old ≡ vec_len links.now.by_block.kinds }
    requires sites { AreChained sites.now.kinds.items sites.now.first.items sites.now.next.items }
    requires site_kinds { vec_len sites.now.first ≡ vec_len links.now.by_site.first }
    requires kind { kind < vec_len links.now.by_block.first }
    requires link_of { AreCursors links.now.by_block.kinds.items (vec_len links.now.by_block.first)
        link_of.old }
    requires site_of { AreCursors sites.now.kinds.items (vec_len sites.now.first) site_of.old }
    ensures link_of { AreCursors links.now.by_block.kinds.items (vec_len links.now.by_block.first)
        link_of.new }
    ensures site_of { AreCursors sites.now.kinds.items (vec_len sites.now.first) site_of.new }
    ensures seat { IfSome result (IsSeat links.now.by_block.kinds.items
        links.now.by_site.kinds.items sites.now.kinds.items kind) }
{
    let link = next_link(links, amounts, link_of[kind]);
    link_of[kind] = link;
    if link >= amounts.len() {
        return None;
    }
    amounts[link] = amounts[link].saturating_sub(1);
    let site_kind = links.by_site.kinds[link] as usize;
    let site = site_of[site_kind];
    if site >= sites.kinds.len() {
        return None;
    }
    site_of[site_kind] = sites.next[site];
    Some(site)
}

/// The first link of a chain on which a block is to go, or the number of links.
fn next_link(links: &Links, amounts: &[u32], from: usize) -> usize
    requires links { AreChainedLinks links.now.by_block.kinds.items links.now.by_block.first.items
        links.now.by_block.next.items
        links.now.by_site.kinds.items links.now.by_site.first.items links.now.by_site.next.items }
    requires amounts { length amounts.now ≡ vec_len links.now.by_block.kinds }
    ensures onward { from ≤ result }
    ensures kind { result < vec_len links.now.by_block.kinds → slice_index
        links.now.by_block.kinds.items result ≡ slice_index links.now.by_block.kinds.items from }
{
    let mut link = from;
    while link < amounts.len() && amounts[link] == 0 {
        link = links.by_block.next[link];
    }
    link
}
