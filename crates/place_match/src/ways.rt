ghost use Rattle.std.specs.Prelude.{◌≡◌, ◌<◌, ◌≤◌, ℕ, All, IfOk, IfSome, length, slice_index, vec_len};
ghost use Rattle.place_match.specs.Tables.{AreChainedLinks, AreReached, IsSearch};

use crate::flow::Links;
use std::alloc::{AllocError, Global};

/// The links on which one more block goes and those on which one less does, and the kind of the
/// free site at the end.
#[derive(Drop)]
pub(crate) struct Way {
    more: Vec<usize>,
    less: Vec<usize>,
    end: usize,
}

/// A way for a block of a kind to a free site, on which blocks of other kinds move on. The search
/// goes by links from block kinds to site kinds, and back by links on which blocks went. It marks
/// each kind once.
pub(crate) fn find_way(
    alloc: Global,
    links: &Links,
    amounts: &[u32],
    room: &[u32],
    kind: usize,
) -> Result<Option<Way>, AllocError>
    requires links { AreChainedLinks links.now.by_block.kinds.items links.now.by_block.first.items
        links.now.by_block.next.items
        links.now.by_site.kinds.items links.now.by_site.first.items links.now.by_site.next.items }
    requires kind { kind < vec_len links.now.by_block.first }
    requires amounts { length amounts.now ≡ vec_len links.now.by_block.kinds }
    requires room { length room.now ≡ vec_len links.now.by_site.first }
    ensures more { IfOk result (λ found. IfSome found
        (λ way. All (λ link. link < length amounts.now) way.more.items)) }
    ensures less { IfOk result (λ found. IfSome found
        (λ way. All (λ link. link < length amounts.now) way.less.items)) }
    ensures end { IfOk result (λ found. IfSome found (λ way. way.end < length room.now)) }
{
    let mut blocks_by = vec![in alloc; None; links.by_block.first.len()]?;
    let mut sites_by = vec![in alloc; None; links.by_site.first.len()]?;
    let mut reached = vec![in alloc; kind]?;
    match search(
        links,
        amounts,
        room,
        &mut blocks_by,
        &mut sites_by,
        &mut reached,
    )? {
        Some(end) => Ok(Some(way_to(alloc, links, &blocks_by, &sites_by, end)?)),
        None => Ok(None),
    }
}

/// The first kind of a free site that a search comes to.
fn search(
    links: &Links,
    amounts: &[u32],
    room: &[u32],
    blocks_by: &mut [Option<usize>],
    sites_by: &mut [Option<usize>],
    reached: &mut Vec<usize>,
) -> Result<Option<usize>, AllocError>
    requires links { AreChainedLinks links.now.by_block.kinds.items links.now.by_block.first.items
        links.now.by_block.next.items
        links.now.by_site.kinds.items links.now.by_site.first.items links.now.by_site.next.items }
    requires amounts { length amounts.now ≡ vec_len links.now.by_block.kinds }
    requires room { length room.now ≡ vec_len links.now.by_site.first }
    requires search { IsSearch (vec_len links.now.by_block.first) (vec_len links.now.by_site.first)
        (vec_len links.now.by_block.kinds) blocks_by.old sites_by.old reached.old.items }
    ensures search { IsSearch (vec_len links.now.by_block.first) (vec_len links.now.by_site.first)
        (vec_len links.now.by_block.kinds) blocks_by.new sites_by.new reached.new.items }
    ensures end { IfOk result (λ found. IfSome found (λ end. end < length room.now)) }
{
    for at in 0..links.by_block.first.len() {
        if at >= reached.len() {
            break;
        }
        let kind = reached[at];
        if let Some(end) = scan(links, amounts, room, blocks_by, sites_by, reached, kind)? {
            return Ok(Some(end));
        }
    }
    Ok(None)
}

/// Reaches the site kinds to which links lead from a block kind, and from each the kinds of blocks
/// that went there; or answers a site kind with a free site.
fn scan(
    links: &Links,
    amounts: &[u32],
    room: &[u32],
    blocks_by: &mut [Option<usize>],
    sites_by: &mut [Option<usize>],
    reached: &mut Vec<usize>,
    kind: usize,
) -> Result<Option<usize>, AllocError>
    requires links { AreChainedLinks links.now.by_block.kinds.items links.now.by_block.first.items
        links.now.by_block.next.items
        links.now.by_site.kinds.items links.now.by_site.first.items links.now.by_site.next.items }
    requires amounts { length amounts.now ≡ vec_len links.now.by_block.kinds }
    requires room { length room.now ≡ vec_len links.now.by_site.first }
    requires kind { kind < vec_len links.now.by_block.first }
    requires search { IsSearch (vec_len links.now.by_block.first) (vec_len links.now.by_site.first)
        (vec_len links.now.by_block.kinds) blocks_by.old sites_by.old reached.old.items }
    ensures search { IsSearch (vec_len links.now.by_block.first) (vec_len links.now.by_site.first)
        (vec_len links.now.by_block.kinds) blocks_by.new sites_by.new reached.new.items }
    ensures end { IfOk result (λ found. IfSome found (λ end. end < length room.now)) }
{
    let mut link = links.by_block.first[kind];
    while link < links.by_block.kinds.len() {
        let site_kind = links.by_site.kinds[link] as usize;
        if sites_by[site_kind].is_none() {
            sites_by[site_kind] = Some(link);
            if room[site_kind] > 0 {
                return Ok(Some(site_kind));
            }
            reach_blocks(links, amounts, blocks_by, reached, site_kind)?;
        }
        link = links.by_block.next[link];
    }
    Ok(None)
}

/// Reaches the kinds of the blocks that went to sites of a kind.
fn reach_blocks(
    links: &Links,
    amounts: &[u32],
    blocks_by: &mut [Option<usize>],
    reached: &mut Vec<usize>,
    site_kind: usize,
) -> Result<(), AllocError>
    requires links { AreChainedLinks links.now.by_block.kinds.items links.now.by_block.first.items
        links.now.by_block.next.items
        links.now.by_site.kinds.items links.now.by_site.first.items links.now.by_site.next.items }
    requires amounts { length amounts.now ≡ vec_len links.now.by_block.kinds }
    requires kind { site_kind < vec_len links.now.by_site.first }
    requires blocks { length blocks_by.old ≡ vec_len links.now.by_block.first }
    requires block_links { AreReached (vec_len links.now.by_block.kinds) blocks_by.old }
    requires reached { (k : ℕ) → k < vec_len reached.old → slice_index reached.old.items k < vec_len
        links.now.by_block.first }
    requires begun { 0 < vec_len reached.old }
    ensures block_links { AreReached (vec_len links.now.by_block.kinds) blocks_by.new }
    ensures reached { (k : ℕ) → k < vec_len reached.new → slice_index reached.new.items k < vec_len
        links.now.by_block.first }
    ensures begun { 0 < vec_len reached.new }
{
    let mut link = links.by_site.first[site_kind];
    while link < links.by_block.kinds.len() {
        let kind = links.by_block.kinds[link] as usize;
        if amounts[link] > 0 && blocks_by[kind].is_none() && reached[0] != kind {
            blocks_by[kind] = Some(link);
            reached.push(kind)?;
        }
        link = links.by_site.next[link];
    }
    Ok(())
}

/// The way that a search went to a site kind, from its end.
fn way_to(
    alloc: Global,
    links: &Links,
    blocks_by: &[Option<usize>],
    sites_by: &[Option<usize>],
    end: usize,
) -> Result<Way, AllocError>
    requires links { AreChainedLinks links.now.by_block.kinds.items links.now.by_block.first.items
        links.now.by_block.next.items
        links.now.by_site.kinds.items links.now.by_site.first.items links.now.by_site.next.items }
    requires blocks { length blocks_by.now ≡ vec_len links.now.by_block.first }
    requires sites { length sites_by.now ≡ vec_len links.now.by_site.first }
    requires block_links { AreReached (vec_len links.now.by_block.kinds) blocks_by.now }
    requires site_links { AreReached (vec_len links.now.by_block.kinds) sites_by.now }
    requires end { end < vec_len links.now.by_site.first }
    ensures more { IfOk result (λ way. All (λ link. link < vec_len links.now.by_block.kinds)
        way.more.items) }
    ensures less { IfOk result (λ way. All (λ link. link < vec_len links.now.by_block.kinds)
        way.less.items) }
    ensures end { IfOk result (λ way. way.end ≡ end) }
{
    let mut more = Vec::new(alloc);
    let mut less = Vec::new(alloc);
    let mut site_kind = end;
    for _ in 0..links.by_block.first.len() {
        let Some(link) = sites_by[site_kind] else {
            break;
        };
        more.push(link)?;
        let kind = links.by_block.kinds[link] as usize;
        let Some(from) = blocks_by[kind] else {
            break;
        };
        less.push(from)?;
        site_kind = links.by_site.kinds[from] as usize;
    }
    Ok(Way { more, less, end })
}

/// Lets blocks go a way: as many as there is room for on it, up to a number. It answers how many.
pub(crate) fn go(way: &Way, amounts: &mut [u32], room: &mut [u32], most: u32) -> u32
    requires more { All (λ link. link < length amounts.old) way.now.more.items }
    requires less { All (λ link. link < length amounts.old) way.now.less.items }
    requires end { way.now.end < length room.old }
    ensures { result ≤ most }
{
    let mut sent = most.min(room[way.end]);
    for link in &way.less {
        sent = sent.min(amounts[*link]);
    }
    for link in &way.less {
        amounts[*link] = amounts[*link].saturating_sub(sent);
    }
    for link in &way.more {
        amounts[*link] = amounts[*link].saturating_add(sent);
    }
    room[way.end] = room[way.end].saturating_sub(sent);
    sent
}
