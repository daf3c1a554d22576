//! Anneals blocks on rows of sites, with nets that a generator of numbers makes, and tells what the
//! places cost before and after. It is what bench/anneal times. With one more word it tells a few
//! small answers as well.
#![tactic(auto)]

mod rows;
mod task;

ghost use Rattle.std.specs.Prelude.{◌≡◌, ◌<◌, ◌≤◌, IfOk, length, map};
ghost use Rattle.anneal_placer.specs.Task.{kinds_of};

use anneal_placer::{AnnealTask, SiteAt, anneal};
use anyhow::{Context, Error, Result, bail};
use place_match::{PlaceError, first_places};
use rows::on_a_row;
use std::alloc::{AllocError, Global};
use std::env;
use task::{MOST, Numbers, cost, nets, square};

/// A word of the command line as a number.
fn number(word: Option<String>) -> Result<u32> {
    let Some(word) = word else {
        bail!("give blocks, sites, the length of a row, nets, a seed, and moves");
    };
    let number = word
        .as_str()
        .parse::<u32>()
        .context("a number of the command line")?;
    Ok(number)
}

/// The same from 1 to `MOST`.
fn size(word: Option<String>) -> Result<u32>
    ensures { IfOk result (λ number. (0 < number) × (number ≤ 1000000)) }
{
    let number = number(word)?;
    if number == 0 || number > MOST {
        bail!("give sizes from 1 to {MOST}");
    }
    Ok(number)
}

fn kinds(alloc: Global, sites: &[SiteAt]) -> Result<Vec<u32>, AllocError>
    ensures { IfOk result (λ kinds. kinds.items ≡ kinds_of sites.now) }
{
    sites.iter().map(|site| site.kind).collect(alloc)
}

fn main(rt: HostRuntime) -> Result<()> {
    let alloc = rt.alloc();
    let mut args = env::args(&rt)?;
    let _program = args.next();
    let block_count = size(args.next())?;
    let site_count = size(args.next())?;
    let side = size(args.next())?;
    let net_count = size(args.next())?;
    let seed = number(args.next())?;
    let moves = number(args.next())?;
    let mut numbers = Numbers { state: 1 };
    let blocks = vec![in alloc; 0u32; block_count as usize]?;
    let sites = square(alloc, site_count, side)?;
    let site_kinds = kinds(alloc, &sites)?;
    let mut fits = Vec::new(alloc);
    fits.push((0, 0))?;
    let nets = nets(alloc, &mut numbers, block_count, net_count)?;
    let task = AnnealTask {
        blocks,
        sites,
        fits,
        nets,
    };
    let places = match first_places(alloc, &task.blocks, &site_kinds, &task.fits) {
        Ok(places) => places,
        Err(PlaceError::NoRoom { .. }) => bail!("give no more blocks than sites"),
        Err(PlaceError::OutOfMemory) => return Err(Error::from(AllocError)),
    };
    let first = cost(&task, &places);
    let answer = anneal(alloc, &task, &places, seed as u64, moves)?;
    let last = cost(&task, &answer);
    if args.next().is_none() {
        println!(rt; "cost {first}, then {last}")?;
    } else {
        println!(rt; "cost {first}, then less: {}", last < first)?;
        let again = anneal(alloc, &task, &places, seed as u64, moves)?;
        println!(rt; "the same again: {}", answer.as_slice() == again.as_slice())?;
        println!(rt; "two on a row: cost {}", on_a_row(alloc, 0, 2)?.1)?;
        println!(rt; "none: cost {}", on_a_row(alloc, 0, 0)?.1)?;
        println!(rt; "three on a row: cost {}", on_a_row(alloc, 0, 3)?.1)?;
        let alone = on_a_row(alloc, 1, 1)?.0;
        println!(rt;
            "one that fits the fifth site: {}",
            alone.as_slice() == [4].as_slice()
        )?;
    }
    Ok(())
}
