//! Unlinks and relinks positions of lists, and pushes, lowers and pops items of a queue by cost,
//! again and again, and tells how many unlinks and pops there were. It is what bench/lists times.
#![tactic(auto)]

ghost use Rattle.std.specs.Prelude.{◌≡◌, ◌<◌, ◌≤◌, All, IfOk, length};

use anyhow::{Context, Result, bail};
use link_lists::{BucketQueue, Lists};
use std::alloc::{AllocError, Global};
use std::env;

/// More positions, items, rounds or buckets aren't asked for.
const MOST: u32 = 10_000_000;

/// A generator of numbers, the same in each run.
#[derive(Drop)]
struct Numbers {
    state: u32,
}

impl Numbers {
    fn up_to(&mut self, most: u32) -> u32
        requires { most ≤ 10000000 }
        ensures { result ≤ most }
    {
        self.state = self.state.wrapping_mul(1664525).wrapping_add(1013904223);
        (self.state >> 7) % (most + 1)
    }
}

/// A word of the command line as a number up to `MOST`.
fn number(word: Option<String>) -> Result<u32>
    ensures { IfOk result (λ number. number ≤ 10000000) }
{
    let Some(word) = word else {
        bail!("give positions, how many a list has, rounds, and items, span, rounds of a queue");
    };
    let number = word
        .as_str()
        .parse::<u32>()
        .context("a number of the command line")?;
    if number > MOST {
        bail!("give numbers up to {MOST}");
    }
    Ok(number)
}

/// Lists, so many, to which positions are dealt in turn.
fn deal(alloc: Global, positions: u32, count: u32) -> Result<Lists, AllocError>
    requires { 0 < count }
    ensures { IfOk result (λ lists. lists.lists ≡ count) }
{
    let mut owner = Vec::new(alloc);
    for position in 0..positions {
        owner.push(position % count)?;
    }
    Lists::with_room(alloc, count, &owner)
}

/// Unlinks the first positions of a list, and answers how many there were.
fn clear_list(lists: &mut Lists, list: u32, most: u32) -> u32
    requires { list < lists.old.lists }
    ensures { lists.new.lists ≡ lists.old.lists }
{
    let mut unlinks = 0;
    for _ in 0..most {
        if let Some(position) = lists.first(list) {
            lists.unlink(position);
            unlinks += 1;
        }
    }
    unlinks
}

/// Unlinks the positions of every second list and relinks them, and answers how many there were.
fn go_round(lists: &mut Lists, count: u32, most: u32) -> u64
    requires { count ≤ lists.old.lists }
    ensures { lists.new.lists ≡ lists.old.lists }
{
    let mut unlinks = 0u64;
    for list in (0..count).step_by(2) {
        unlinks = unlinks.saturating_add(u64::from(clear_list(lists, list, most)));
    }
    lists.relink_to(0);
    unlinks
}

/// Queues each item, at a cost within the span.
fn push_all(queue: &mut BucketQueue, numbers: &mut Numbers, items: u32, span: u32)
    requires items { items ≤ length queue.old.costs }
    requires span { span ≤ queue.old.span }
    requires popped { queue.old.popped ≡ 0 }
    requires few { span ≤ 10000000 }
    ensures items { length queue.new.costs ≡ length queue.old.costs }
    ensures span { queue.new.span ≡ queue.old.span }
    ensures popped { queue.new.popped ≡ 0 }
{
    for item in 0..items {
        if queue.cost_of(item).is_none() {
            queue.push(item, u64::from(numbers.up_to(span)));
        }
    }
}

/// Gives every fourth item half its cost.
fn lower_some(queue: &mut BucketQueue, items: u32)
    requires items { items ≤ length queue.old.costs }
    requires popped { queue.old.popped ≡ 0 }
    ensures items { length queue.new.costs ≡ length queue.old.costs }
    ensures span { queue.new.span ≡ queue.old.span }
{
    for item in (0..items).step_by(4) {
        if let Some(cost) = queue.cost_of(item) {
            queue.lower(item, cost / 2);
        }
    }
}

/// Pops all items, and answers how many there were.
fn pop_all(queue: &mut BucketQueue, items: u32) -> u64
    ensures items { length queue.new.costs ≡ length queue.old.costs }
    ensures span { queue.new.span ≡ queue.old.span }
{
    let mut pops = 0u64;
    for _ in 0..items {
        if queue.pop_least().is_some() {
            pops = pops.saturating_add(1);
        }
    }
    pops
}

/// How many unlinks there are in all rounds.
fn unlinks(alloc: Global, positions: u32, most: u32, rounds: u32) -> Result<u64, AllocError>
    requires positions { positions ≤ 10000000 }
    requires most { 0 < most }
{
    let count = positions / most + 1;
    let mut lists = deal(alloc, positions, count)?;
    let mut unlinks = 0u64;
    for _ in 0..rounds {
        unlinks = unlinks.saturating_add(go_round(&mut lists, count, most));
    }
    Ok(unlinks)
}

/// How many pops there are in all rounds.
fn pops(alloc: Global, items: u32, span: u32, rounds: u32) -> Result<u64, AllocError>
    requires { span ≤ 10000000 }
{
    let mut numbers = Numbers { state: 1 };
    let mut queue = BucketQueue::with_room(alloc, items, span)?;
    let mut pops = 0u64;
    for _ in 0..rounds {
        queue.clear();
        push_all(&mut queue, &mut numbers, items, span);
        lower_some(&mut queue, items);
        pops = pops.saturating_add(pop_all(&mut queue, items));
    }
    Ok(pops)
}

fn main(rt: HostRuntime) -> Result<()> {
    let mut args = env::args(&rt)?;
    let _program = args.next();
    let positions = number(args.next())?;
    let most = number(args.next())?;
    let list_rounds = number(args.next())?;
    let items = number(args.next())?;
    let span = number(args.next())?;
    let queue_rounds = number(args.next())?;
    if most == 0 {
        bail!("a list has at least one position");
    }
    let unlinks = unlinks(rt.alloc(), positions, most, list_rounds)?;
    let pops = pops(rt.alloc(), items, span, queue_rounds)?;
    println!(rt; "{unlinks} unlinks, {pops} pops")?;
    Ok(())
}
