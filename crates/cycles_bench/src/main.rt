//! Asks for the least cycle of a chain of nodes, of one ring, and of rings of a length, and tells
//! what was found. It is what bench/cycles times.
#![tactic(auto)]

ghost use Rattle.std.specs.Prelude.{◌<◌, ◌≤◌, IfOk, length};
ghost use Rattle.std.specs.List.{All};

use anyhow::{Context, Result, bail};
use least_cycle::{Cycles, least_cycle};
use std::alloc::{AllocError, Global};
use std::env;

/// More nodes aren't asked for.
const MOST: u32 = 10_000_000;

/// Edges from each node to the next one.
fn chain(alloc: Global, nodes: u32) -> Result<Vec<(u32, u32)>, AllocError>
    ensures within { IfOk result (λ edges. All (λ edge. (edge.0 < nodes) × (edge.1 < nodes))
        edges.items) }
    ensures few { IfOk result (λ edges. length edges.items ≤ nodes) }
{
    (1..nodes).map(|node| (node - 1, node)).collect(alloc)
}

/// Edges from each node to the next one, and from the last of each so many nodes to their first.
fn rings(alloc: Global, nodes: u32, size: u32) -> Result<Vec<(u32, u32)>, AllocError>
    requires { 0 < size }
    ensures within { IfOk result (λ edges. All (λ edge. (edge.0 < nodes) × (edge.1 < nodes))
        edges.items) }
    ensures few { IfOk result (λ edges. length edges.items ≤ nodes) }
{
    let mut edges = Vec::new(alloc);
    for node in 0..nodes {
        edges.push((node, after(node, nodes, size)))?;
    }
    Ok(edges)
}

/// The next node of the ring.
fn after(node: u32, nodes: u32, size: u32) -> u32
    requires node { node < nodes }
    requires size { 0 < size }
    ensures { result < nodes }
{
    if node + 1 < nodes && (node + 1) % size != 0 {
        node + 1
    } else {
        node - node % size
    }
}

/// A word of the command line as a number from 1 to `MOST`.
fn number(word: Option<String>) -> Result<u32>
    ensures { IfOk result (λ number. (0 < number) × (number ≤ 10000000)) }
{
    let Some(word) = word else {
        bail!("give nodes, and the size of a ring");
    };
    let number = word
        .as_str()
        .parse::<u32>()
        .context("a number of the command line")?;
    if number == 0 || number > MOST {
        bail!("give numbers from 1 to {MOST}");
    }
    Ok(number)
}

/// Tells what was found.
fn tell(rt: &impl Print, name: &str, cycles: &Cycles) -> std::io::Result<()> {
    match cycles {
        Cycles::Ranked(ranks) => println!(rt; "{name}: no cycle, {} ranks", ranks.len()),
        Cycles::Cycle(cycle) => println!(rt; "{name}: a cycle of {} nodes", cycle.len()),
    }
}

fn main(rt: HostRuntime) -> Result<()> {
    let mut args = env::args(&rt)?;
    let _program = args.next();
    let nodes = number(args.next())?;
    let size = number(args.next())?;
    let chain = chain(rt.alloc(), nodes)?;
    tell(
        &rt,
        "chain",
        &least_cycle(rt.alloc(), nodes, chain.as_slice())?,
    )?;
    let ring = rings(rt.alloc(), nodes, nodes)?;
    tell(
        &rt,
        "ring",
        &least_cycle(rt.alloc(), nodes, ring.as_slice())?,
    )?;
    let rings = rings(rt.alloc(), nodes, size)?;
    tell(
        &rt,
        "rings",
        &least_cycle(rt.alloc(), nodes, rings.as_slice())?,
    )?;
    Ok(())
}
