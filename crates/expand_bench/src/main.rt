//! Expands a block type whose one interconnect is a `complete`, and tells how many edges it has. It
//! is what bench/expand times. The seconds that `graph_of` took go to the standard error.
#![tactic(auto)]

ghost use Rattle.std.specs.Prelude.{◌≤◌, IfOk};

use anyhow::{Context, bail};
use expand_samples::crossbar;
use pb_expand::{ExpandError, graph_of};
use std::alloc::Global;
use std::env;
use std::time::Instant;

/// More pins aren't asked for on a side.
const MOST: u32 = 1_000_000;

/// A word of the command line as a number of pins.
fn number(word: Option<String>) -> anyhow::Result<u32>
    ensures { IfOk result (λ number. number ≤ 1000000) }
{
    let Some(word) = word else {
        bail!("give the number of input pins and that of output pins");
    };
    let number = word
        .as_str()
        .parse::<u32>()
        .context("a number of the command line")?;
    if number > MOST {
        bail!("give numbers up to {MOST}");
    }
    Ok(number)
}

/// How many edges the block type has whose `complete` joins so many input pins to so many others.
fn edge_count(alloc: Global, ins: u32, outs: u32) -> Result<u32, ExpandError> {
    let graph = graph_of(alloc, &crossbar(alloc, ins, outs, false)?, 0)?;
    Ok(graph.edges())
}

fn main(rt: HostRuntime) -> anyhow::Result<()> {
    let mut args = env::args(&rt)?;
    let _program = args.next();
    let ins = number(args.next())?;
    let outs = number(args.next())?;
    let start = Instant::now(&rt)?;
    let edges = edge_count(rt.alloc(), ins, outs)?;
    let took = start.elapsed(&rt)?;
    println!(rt; "{edges} edges")?;
    eprintln!(rt; "{} ms", took.as_millis())?;
    Ok(())
}
