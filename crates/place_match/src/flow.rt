ghost use Rattle.std.specs.Prelude.{◌≡◌, ◌<◌, ◌≤◌, ℕ, All, IfOk, length, map, vec_len};
ghost use Rattle.place_match.specs.Tables.{AreChainedLinks};

use crate::chains::Chains;
use crate::ways::{find_way, go};
use std::alloc::{AllocError, Global};

/// The links of a block kind and a site kind that go together, by the one and by the other.
#[derive(Drop)]
pub(crate) struct Links {
    pub(crate) by_block: Chains,
    pub(crate) by_site: Chains,
}

impl Links {
    pub(crate) fn new(
        alloc: Global,
        links: &[(u32, u32)],
        block_kind_count: usize,
        site_kind_count: usize,
    ) -> Result<Links, AllocError>
        requires { All (λ link. (link.0 < block_kind_count) × (link.1 < site_kind_count))
            links.now }
        ensures chained { IfOk result (λ made. AreChainedLinks made.by_block.kinds.items
            made.by_block.first.items made.by_block.next.items
            made.by_site.kinds.items made.by_site.first.items made.by_site.next.items) }
        ensures block_kinds { IfOk result (λ made. made.by_block.kinds.items ≡ map (λ link. link.0)
            links.now) }
        ensures site_kinds { IfOk result (λ made. made.by_site.kinds.items ≡ map (λ link. link.1)
            links.now) }
        ensures block_count { IfOk result (λ made. vec_len made.by_block.first ≡ block_kind_count) }
        ensures site_count { IfOk result (λ made. vec_len made.by_site.first ≡ site_kind_count) }
    {
        let block_kinds: Vec<u32> = links.iter().map(|link| link.0).collect(alloc)?;
        let site_kinds: Vec<u32> = links.iter().map(|link| link.1).collect(alloc)?;
        Ok(Links {
            by_block: Chains::new(alloc, block_kinds, block_kind_count)?,
            by_site: Chains::new(alloc, site_kinds, site_kind_count)?,
        })
    }
}

/// How many blocks go by each link: as many as there is room for, which is how many sites of each
/// kind are free. No proof rests on these numbers: where they fall short, the matching goes on.
pub(crate) fn flow_of(
    alloc: Global,
    links: &Links,
    blocks: &[u32],
    room: &mut [u32],
) -> Result<Vec<u32>, AllocError>
    requires links { AreChainedLinks links.now.by_block.kinds.items links.now.by_block.first.items
        links.now.by_block.next.items
        links.now.by_site.kinds.items links.now.by_site.first.items links.now.by_site.next.items }
    requires blocks { All (λ kind. kind < vec_len links.now.by_block.first) blocks.now }
    requires room { length room.old ≡ vec_len links.now.by_site.first }
    ensures { IfOk result (λ amounts. vec_len amounts ≡ vec_len links.now.by_block.kinds) }
{
    let mut amounts = vec![in alloc; 0u32; links.by_block.kinds.len()]?;
    let counts = counts_of(alloc, blocks, links.by_block.first.len())?;
    for kind in 0..links.by_block.first.len() {
        if !send(alloc, links, &mut amounts, room, kind, counts[kind])? {
            break;
        }
    }
    Ok(amounts)
}

/// How many entries there are of each kind.
pub(crate) fn counts_of(
    alloc: Global,
    kinds: &[u32],
    kind_count: usize,
) -> Result<Vec<u32>, AllocError>
    requires { All (λ kind. kind < kind_count) kinds.now }
    ensures { IfOk result (λ counts. vec_len counts ≡ kind_count) }
{
    let mut counts = vec![in alloc; 0u32; kind_count]?;
    for kind in kinds {
        counts[*kind as usize] = counts[*kind as usize].saturating_add(1);
    }
    Ok(counts)
}

/// Lets so many blocks of a kind go, or as many as there is room for; and answers whether all went.
fn send(
    alloc: Global,
    links: &Links,
    amounts: &mut [u32],
    room: &mut [u32],
    kind: usize,
    count: u32,
) -> Result<bool, AllocError>
    requires links { AreChainedLinks links.now.by_block.kinds.items links.now.by_block.first.items
        links.now.by_block.next.items
        links.now.by_site.kinds.items links.now.by_site.first.items links.now.by_site.next.items }
    requires kind { kind < vec_len links.now.by_block.first }
    requires amounts { length amounts.old ≡ vec_len links.now.by_block.kinds }
    requires room { length room.old ≡ vec_len links.now.by_site.first }
{
    let mut left = count;
    while left > 0 {
        let Some(way) = find_way(alloc, links, amounts, room, kind)? else {
            return Ok(false);
        };
        let sent = go(&way, amounts, room, left);
        if sent == 0 {
            return Ok(false);
        }
        left -= sent;
    }
    Ok(true)
}
