ghost use Rattle.std.specs.Prelude.{◌≤◌, ◌<◌, ◌^◌, IfOk, MatchOption, length};
ghost use Rattle.matching.specs.Bipartite.{AreApart};
ghost use Rattle.place_match.specs.Tables.{AreLinks, IsLink, IsNoLink};

use indexmap::IndexSet;
use std::alloc::{AllocError, Global};

/// The pairs of a block kind and a site kind that go together, as numbers of kinds, each once.
pub(crate) fn links_of(
    alloc: Global,
    block_kinds: &IndexSet<u32>,
    site_kinds: &IndexSet<u32>,
    fits: &[(u32, u32)],
) -> Result<IndexSet<(u32, u32)>, AllocError>
    requires few_block_kinds { length block_kinds.now.keys < 2 ^ 32 }
    requires few_site_kinds { length site_kinds.now.keys < 2 ^ 32 }
    requires block_kinds_apart { AreApart block_kinds.now.keys }
    requires site_kinds_apart { AreApart site_kinds.now.keys }
    ensures { IfOk result (λ links. AreLinks block_kinds.now.keys site_kinds.now.keys fits.now
        (length fits.now) links.keys) }
{
    let mut links = IndexSet::new(alloc);
    for fit in fits {
        if let Some(link) = link_of(block_kinds, site_kinds, *fit) {
            links.insert(link)?;
        }
    }
    Ok(links)
}

/// The numbers of a pair's kinds, where there are a block and a site of these kinds.
fn link_of(
    block_kinds: &IndexSet<u32>,
    site_kinds: &IndexSet<u32>,
    fit: (u32, u32),
) -> Option<(u32, u32)>
    requires few_block_kinds { length block_kinds.now.keys < 2 ^ 32 }
    requires few_site_kinds { length site_kinds.now.keys < 2 ^ 32 }
    ensures { MatchOption result (IsNoLink block_kinds.now.keys site_kinds.now.keys fit)
        (IsLink block_kinds.now.keys site_kinds.now.keys fit) }
{
    let block_kind = block_kinds.get_index_of(&fit.0)?;
    let site_kind = site_kinds.get_index_of(&fit.1)?;
    Some((block_kind as u32, site_kind as u32))
}
