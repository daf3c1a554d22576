//! Asks again and again for first places of blocks on sites, and tells how often there are some. It
//! is what bench/places times. Then it tells what a few small tasks are answered.
#![tactic(auto)]

ghost use Rattle.std.specs.Prelude.{◌≡◌, ◌<◌, ◌≤◌, IfOk, length};

use anyhow::{Context, Error, Result, bail};
use place_match::{PlaceError, first_places};
use std::alloc::{AllocError, Global};
use std::env;

/// More kinds, blocks, sites or rounds aren't asked for.
const MOST: u32 = 1_000_000;

/// What is to be placed: kinds of blocks and of sites, and what goes together.
#[derive(Drop)]
struct Task {
    blocks: Vec<u32>,
    sites: Vec<u32>,
    fits: Vec<(u32, u32)>,
}

impl Task {
    /// As many blocks and sites of each kind, the blocks from the last kind to the first. A block
    /// fits sites of its own kind and of that many kinds less one in front of it; the first of
    /// these are listed first, so that early blocks take what later ones need.
    fn new(
        alloc: Global,
        kinds: u32,
        blocks: u32,
        sites: u32,
        span: u32,
    ) -> Result<Task, AllocError> {
        let mut task = Task {
            blocks: Vec::new(alloc),
            sites: Vec::new(alloc),
            fits: Vec::new(alloc),
        };
        for kind in 0..kinds {
            task.push_kind(kinds - 1 - kind, blocks)?;
            task.push_sites(kind, sites)?;
            task.push_fits(kind, span)?;
        }
        Ok(task)
    }

    fn push_kind(&mut self, kind: u32, count: u32) -> Result<(), AllocError> {
        for _ in 0..count {
            self.blocks.push(kind)?;
        }
        Ok(())
    }

    fn push_sites(&mut self, kind: u32, count: u32) -> Result<(), AllocError> {
        for _ in 0..count {
            self.sites.push(kind)?;
        }
        Ok(())
    }

    fn push_fits(&mut self, kind: u32, span: u32) -> Result<(), AllocError> {
        for site_kind in kind.saturating_sub(span)..kind {
            self.fits.push((kind, site_kind))?;
        }
        self.fits.push((kind, kind))?;
        Ok(())
    }
}

/// A word of the command line as a number from 1 to `MOST`.
fn number(word: Option<String>) -> Result<u32>
    ensures { IfOk result (λ number. (0 < number) × (number ≤ 1000000)) }
{
    let Some(word) = word else {
        bail!("give kinds, blocks and sites of each, the span of a block, and rounds");
    };
    let number = word
        .as_str()
        .parse::<u32>()
        .context("a number of the command line")?;
    if number == 0 || number > MOST {
        bail!("give numbers from 1 to {MOST}");
    }
    Ok(number)
}

/// What a small task is answered: the place of each block, or how many blocks and sites a refusal
/// names.
fn answer(alloc: Global, blocks: &[u32], sites: &[u32], fits: &[(u32, u32)]) -> Result<String>
    requires few_blocks { length blocks.now < 1000 }
    requires few_sites { length sites.now < 1000 }
{
    match first_places(alloc, blocks, sites, fits) {
        Ok(places) => Ok(format!(in alloc; "places {places:?}")?),
        Err(PlaceError::NoRoom { blocks, sites }) => Ok(format!(in alloc;
            "no room for {} blocks on {} sites",
            blocks.len(),
            sites.len()
        )?),
        Err(PlaceError::OutOfMemory) => Err(Error::from(AllocError)),
    }
}

/// Prints what small tasks are answered: one block of a kind more than the sites that fit it, as
/// many, and none; and kinds that share sites, where a pair is listed twice and one names no block.
fn print_answers(rt: &(impl Print + AllocGlobal)) -> Result<()> {
    let alloc = rt.alloc();
    let of_a_kind = [3; 9];
    let sites = [7; 8];
    let fits = [(3, 7)];
    let nine = answer(alloc, &of_a_kind, &sites, &fits)?;
    println!(rt; "9 blocks of a kind, 8 sites: {nine}")?;
    let eight = answer(alloc, &of_a_kind[1..], &sites, &fits)?;
    println!(rt; "8 blocks of a kind, 8 sites: {eight}")?;
    let none = answer(alloc, &[], &sites, &fits)?;
    println!(rt; "no blocks, 8 sites: {none}")?;
    let sites = [50, 50, 70];
    let fits = [(2, 70), (2, 50), (1, 50), (9, 90), (2, 50)];
    let shared = answer(alloc, &[2, 1, 1], &sites, &fits)?;
    println!(rt; "3 blocks of kinds that share 3 sites: {shared}")?;
    let crowded = answer(alloc, &[2, 1, 1, 1], &sites, &fits)?;
    println!(rt; "4 blocks of kinds that share 3 sites: {crowded}")?;
    Ok(())
}

/// Whether all blocks have places.
fn has_places(alloc: Global, task: &Task) -> Result<bool> {
    if task.blocks.len() > MOST as usize || task.sites.len() > MOST as usize {
        bail!("give no more than {MOST} blocks and sites");
    }
    match first_places(alloc, &task.blocks, &task.sites, &task.fits) {
        Ok(_) => Ok(true),
        Err(PlaceError::NoRoom { .. }) => Ok(false),
        Err(PlaceError::OutOfMemory) => Err(Error::from(AllocError)),
    }
}

fn main(rt: HostRuntime) -> Result<()> {
    let mut args = env::args(&rt)?;
    let _program = args.next();
    let kinds = number(args.next())?;
    let blocks = number(args.next())?;
    let sites = number(args.next())?;
    let span = number(args.next())?;
    let rounds = number(args.next())?;
    let task = Task::new(rt.alloc(), kinds, blocks, sites, span)?;
    let mut placed = 0u32;
    for _ in 0..rounds {
        if has_places(rt.alloc(), &task)? {
            placed = placed.saturating_add(1);
        }
    }
    println!(rt; "{placed} of {rounds} rounds have places")?;
    print_answers(&rt)
}
