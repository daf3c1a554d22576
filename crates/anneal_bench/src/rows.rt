ghost use Rattle.std.specs.Prelude.{◌≡◌, ◌<◌, ◌≤◌, IfOk, length};
ghost use Rattle.std.specs.List.{All};

use crate::kinds;
use crate::task::cost;
use anneal_placer::{AnnealTask, SiteAt, anneal};
use anyhow::{Error, Result, bail};
use place_match::{PlaceError, first_places};
use std::alloc::{AllocError, Global};

/// Ten sites on a row, the first two of them at its ends. The fifth one is of a kind of its own.
fn ten_sites(alloc: Global) -> Result<Vec<SiteAt>, AllocError>
    ensures { IfOk result (λ sites. length sites.items ≡ 10) }
{
    let mut sites = Vec::new(alloc);
    for number in 0..10u32 {
        let kind = if number == 4 { 1 } else { 0 };
        let x = number * 9 % 10;
        sites.push(SiteAt { kind, x, y: 0 })?;
    }
    Ok(sites)
}

/// A net of the first blocks.
fn net_of_all(alloc: Global, blocks: u32) -> Result<Vec<u32>, AllocError>
    ensures { IfOk result (λ net. All (λ block. block < blocks) net.items) }
{
    let mut net = Vec::new(alloc);
    for block in 0..blocks {
        net.push(block)?;
    }
    Ok(net)
}

/// Anneals blocks of a kind, joined by one net, on the row of ten sites. The sites that they have
/// in the end, and what these cost.
pub(crate) fn on_a_row(alloc: Global, kind: u32, blocks: u32) -> Result<(Vec<u32>, u64)>
    requires { blocks ≤ 10 }
{
    let sites = ten_sites(alloc)?;
    let site_kinds = kinds(alloc, &sites)?;
    let mut fits = Vec::new(alloc);
    fits.push((0, 0))?;
    fits.push((1, 1))?;
    let mut nets = Vec::new(alloc);
    nets.push(net_of_all(alloc, blocks)?)?;
    let blocks = vec![in alloc; kind; blocks as usize]?;
    let task = AnnealTask {
        blocks,
        sites,
        fits,
        nets,
    };
    let places = match first_places(alloc, &task.blocks, &site_kinds, &task.fits) {
        Ok(places) => places,
        Err(PlaceError::NoRoom { .. }) => bail!("no room on the row"),
        Err(PlaceError::OutOfMemory) => return Err(Error::from(AllocError)),
    };
    let answer = anneal(alloc, &task, &places, 1, 1000)?;
    let sum = cost(&task, &answer);
    Ok((answer, sum))
}
