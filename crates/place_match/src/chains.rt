ghost use Rattle.std.specs.Prelude.{◌≡◌, ◌<◌, ◌^◌, ℕ, All, IfOk, OnOk, length, slice_index, vec_len};
ghost use Rattle.place_match.specs.Tables.{AreChained, AddsSites, ArePairs};

use std::alloc::{AllocError, Global};

/// The sites of each kind, as chains through all sites.
#[derive(Drop)]
pub(crate) struct Chains {
    /// The number of each site's kind.
    pub(crate) kinds: Vec<u32>,
    /// The first site of each kind, or the number of sites.
    pub(crate) first: Vec<usize>,
    /// The next site of the same kind, or the number of sites.
    pub(crate) next: Vec<usize>,
}

impl Chains {
    pub(crate) fn new(
        alloc: Global,
        kinds: Vec<u32>,
        kind_count: usize,
    ) -> Result<Chains, AllocError>
        requires { All (λ kind. kind < kind_count) kinds.items }
        ensures kinds { IfOk result (λ chains. chains.kinds.items ≡ kinds.items) }
        ensures first { IfOk result (λ chains. vec_len chains.first ≡ kind_count) }
        ensures chained { IfOk result (λ chains. AreChained kinds.items chains.first.items
            chains.next.items) }
    {
        let site_count = kinds.len();
        let mut first = vec![in alloc; site_count; kind_count]?;
        let mut next = vec![in alloc; 0; site_count]?;
        chain(kinds.as_slice(), &mut first, &mut next);
        Ok(Chains { kinds, first, next })
    }

    /// For each pair of a row and a kind, the pairs of the row and each site of that kind.
    pub(crate) fn pairs_of(
        &self,
        alloc: Global,
        links: &[(u32, u32)],
    ) -> Result<Vec<(u32, u32)>, AllocError>
        requires chained { AreChained self.now.kinds.items self.now.first.items
            self.now.next.items }
        requires within { All (λ link. link.1 < vec_len self.now.first) links.now }
        requires few { length self.now.kinds.items < 2 ^ 32 }
        ensures { IfOk result (λ pairs. ArePairs self.now.kinds.items links.now (length links.now)
            pairs.items) }
    {
        let mut pairs = Vec::new(alloc);
        for link in links {
            self.push_sites(&mut pairs, link.0, link.1)?;
        }
        Ok(pairs)
    }

    /// Adds the pairs of the row and each site of that kind.
    fn push_sites(&self, pairs: &mut Vec<(u32, u32)>, row: u32, kind: u32) -> Result<(), AllocError>
        requires chained { AreChained self.now.kinds.items self.now.first.items
            self.now.next.items }
        requires within { kind < vec_len self.now.first }
        requires few { length self.now.kinds.items < 2 ^ 32 }
        ensures { OnOk result (AddsSites self.now.kinds.items row kind (length self.now.kinds.items)
            pairs.old.items pairs.new.items) }
    {
        let mut site = self.first[kind as usize];
        while site < self.kinds.len() {
            pairs.push((row, site as u32))?;
            site = self.next[site];
        }
        Ok(())
    }
}

/// Chains the sites of each kind, from the last site to the first.
fn chain(kinds: &[u32], first: &mut [usize], next: &mut [usize])
    requires within { All (λ kind. kind < length first.old) kinds.now }
    requires none { (kind : ℕ) → kind < length first.old → slice_index first.old kind ≡ length
        kinds.now }
    requires room { length next.old ≡ length kinds.now }
    ensures { AreChained kinds.now first.new next.new }
{
    let mut site = kinds.len();
    while site > 0 {
        site -= 1;
        let kind = kinds[site] as usize;
        next[site] = first[kind];
        first[kind] = site;
    }
}
