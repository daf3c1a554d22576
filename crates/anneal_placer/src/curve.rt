use crate::SiteAt;
use std::alloc::{AllocError, Global};

/// The sites, kind by kind, along Hilbert's curve, on which what stands near together is near in
/// the plane.
#[derive(Drop)]
pub(crate) struct Curve {
    /// The sites in this order.
    order: Vec<u32>,
    /// Where each site stands in it.
    rank: Vec<u32>,
}

impl Curve {
    pub(crate) fn new(alloc: Global, sites: &[SiteAt]) -> Result<Curve, AllocError> {
        let mut keys = Vec::with_capacity(alloc, sites.len())?;
        for (number, site) in sites.iter().enumerate() {
            keys.push((site.kind, along(site.x, site.y), number))?;
        }
        keys.sort()?;
        let mut order = Vec::with_capacity(alloc, sites.len())?;
        let mut rank = vec![in alloc; 0u32; sites.len()]?;
        for key in &keys {
            if let Some(place) = rank.get_mut(key.2) {
                *place = (order.len() & 0xffff_ffff) as u32;
            }
            order.push((key.2 & 0xffff_ffff) as u32)?;
        }
        Ok(Curve { order, rank })
    }

    pub(crate) fn len(&self) -> u32 {
        (self.order.len() & 0xffff_ffff) as u32
    }

    /// Where a site stands in the order.
    pub(crate) fn rank_of(&self, site: u32) -> u32 {
        self.rank.get(site as usize).copied().unwrap_or(0)
    }

    /// The site that stands there, if there is one.
    pub(crate) fn site(&self, rank: u32) -> Option<u32> {
        self.order.get(rank as usize).copied()
    }
}

/// How far along Hilbert's curve through the plane a point stands: of each square, the quarter in
/// which it stands, from the largest square to the least.
fn along(x: u32, y: u32) -> u64 {
    let mut x = x;
    let mut y = y;
    let mut far = 0u64;
    for bit in (0..32u32).rev() {
        let right = (x >> bit) & 1 == 1;
        let high = (y >> bit) & 1 == 1;
        far = (far << 2) | quarter(right, high);
        if !high {
            (x, y) = if right { (!y, !x) } else { (y, x) };
        }
    }
    far
}

/// Where the curve comes through a quarter of a square.
fn quarter(right: bool, high: bool) -> u64 {
    match (right, high) {
        (false, false) => 0,
        (false, true) => 1,
        (true, true) => 2,
        (true, false) => 3,
    }
}
