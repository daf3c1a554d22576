//! Asks again and again for paths that share no node, through a graph that a generator of numbers
//! makes, and tells how often there were as many. It is what bench/cuts times.
#![tactic(auto)]

ghost use Rattle.std.specs.Prelude.{◌≡◌, ◌<◌, ◌≤◌, IfOk, length};
ghost use Rattle.std.specs.List.{All};

use anyhow::{Context, Result, bail};
use crowd_cuts::{Flow, Plain, disjoint_paths};
use sqlite_items::Items;
use std::alloc::{AllocError, Global};
use std::env;

/// More nodes, edges, paths or rounds aren't asked for.
const MOST: u32 = 1_000_000;

/// A generator of numbers, the same in each run.
#[derive(Drop)]
struct Numbers {
    state: u32,
}

impl Numbers {
    fn below(&mut self, limit: u32) -> u32
        requires { 0 < limit }
        ensures { result < limit }
    {
        self.state = self.state.wrapping_mul(1664525).wrapping_add(1013904223);
        (self.state >> 8) % limit
    }

    fn nodes(&mut self, alloc: Global, nodes: u32, count: u32) -> Result<Vec<u32>, AllocError>
        requires { 0 < nodes }
        ensures within { IfOk result (λ list. All (λ node. node < nodes) list.items) }
        ensures count { IfOk result (λ list. length list.items ≤ count) }
    {
        let mut list = Vec::new(alloc);
        'numbers: while list.len() < count as usize {
            list.push(self.below(nodes))?;
        }
        Ok(list)
    }

    fn edges(
        &mut self,
        alloc: Global,
        nodes: u32,
        count: u32,
    ) -> Result<Items<(u32, u32)>, AllocError>
        requires { 0 < nodes }
        ensures within { IfOk result (λ edges. All (λ edge. (edge.0 < nodes) × (edge.1 < nodes))
            edges) }
        ensures count { IfOk result (λ edges. length edges ≤ count) }
    {
        let mut edges = Vec::new(alloc);
        'numbers: while edges.len() < count as usize {
            let from = self.below(nodes);
            let to = self.below(nodes);
            edges.push((from, to))?;
        }
        Ok(Items::from_vec(edges))
    }
}

/// A word of the command line as a number from 1 to `MOST`.
fn number(word: Option<String>) -> Result<u32>
    ensures { IfOk result (λ number. (0 < number) × (number ≤ 1000000)) }
{
    let Some(word) = word else {
        bail!("give nodes, edges, paths, starts and ends, and rounds");
    };
    let number = word
        .as_str()
        .parse::<u32>()
        .context("a number of the command line")?;
    if number == 0 || number > MOST {
        bail!("give numbers from 1 to {MOST}");
    }
    Ok(number)
}

fn main(rt: HostRuntime) -> Result<()> {
    let mut args = env::args(&rt)?;
    let _program = args.next();
    let nodes = number(args.next())?;
    let edges = number(args.next())?;
    let paths = number(args.next())?;
    let listed = number(args.next())?;
    let rounds = number(args.next())?;
    let mut numbers = Numbers { state: 1 };
    let edges = numbers.edges(rt.alloc(), nodes, edges)?;
    let graph = Plain { nodes, edges };
    let mut found = 0u32;
    for _ in 0..rounds {
        let starts = numbers.nodes(rt.alloc(), nodes, listed)?;
        let ends = numbers.nodes(rt.alloc(), nodes, listed)?;
        let flow = disjoint_paths(rt.alloc(), &graph, &starts, &ends, paths)?;
        if let Flow::Paths(_) = flow {
            found = found.saturating_add(1);
        }
    }
    println!(rt; "{found} of {rounds} rounds with {paths} paths")?;
    Ok(())
}
