ghost use Rattle.std.specs.Prelude.{◌≡◌, ◌<◌, ◌^◌, ◌++◌, ℕ, All, Some, None, true, false, IsTrue, IfOk, OnOk, MatchOption, length, slice_get};
ghost use Rattle.vtr_base.specs.Lists.{Has};
ghost use Rattle.list_laws.specs.Orders.{Once};
ghost use Rattle.prog_map.specs.Walk.{IsLast};
ghost use Rattle.prog_map.specs.Ends.{Leads, StayInside, AreSettled, AreOpen, IsWalked, EndsAt, Turns, GetEnd};

use std::alloc::{AllocError, Global};

/// Where the walk from each node ends, where a node leads to one other at most: at one that leads
/// to none, or before a node would stand in the walk a second time. Each node is walked over once.
pub(crate) fn ends_of(alloc: Global, steps: &[Option<u32>]) -> Result<Vec<u32>, AllocError>
    requires inside { StayInside steps.now }
    requires few { length steps.now < 2 ^ 32 }
    ensures all { IfOk result (λ last. length last.items ≡ length steps.now) }
    ensures last { IfOk result (λ last. (node end : ℕ) → slice_get last.items node ≡ Some end
        → IsLast (Leads steps.now) node end) }
{
    let mut met = vec![in alloc; false; steps.len()]?;
    let mut last = vec![in alloc; 0; steps.len()]?;
    for start in 0..steps.len() {
        settle_from(
            alloc,
            steps,
            met.as_mut_slice(),
            last.as_mut_slice(),
            start as u32,
        )?;
    }
    Ok(last)
}

/// Walks from a node, where it wasn't met, and settles what it meets.
fn settle_from(
    alloc: Global,
    steps: &[Option<u32>],
    met: &mut [bool],
    last: &mut [u32],
    start: u32,
) -> Result<(), AllocError>
    requires inside { StayInside steps.now }
    requires start { start < length steps.now }
    requires settled { AreSettled steps.now met.old last.old }
    ensures settled { OnOk result (AreSettled steps.now met.new last.new) }
    ensures met { OnOk result (slice_get met.new start ≡ Some true) }
    ensures kept { OnOk result ((node : ℕ) → slice_get met.old node ≡ Some true → slice_get met.new
        node ≡ Some true) }
{
    if met[start as usize] {
        return Ok(());
    }
    let walk = walk_from(alloc, steps, met, start)?;
    settle(steps, met, last, walk.nodes.as_slice(), walk.end);
    Ok(())
}

/// The nodes on a walk, up to one that leads to none that wasn't met.
#[derive(Drop)]
struct Walk {
    nodes: Vec<u32>,
    end: u32,
}

/// Walks from a node over those that weren't met.
fn walk_from(
    alloc: Global,
    steps: &[Option<u32>],
    met: &mut [bool],
    start: u32,
) -> Result<Walk, AllocError>
    requires inside { StayInside steps.now }
    requires marks { length met.old ≡ length steps.now }
    requires start { slice_get met.old start ≡ Some false }
    ensures walked { IfOk result (λ walk. IsWalked steps.now met.old met.new start walk.end
        walk.nodes.items) }
    ensures ends { IfOk result (λ walk. EndsAt steps.now met.new walk.end) }
{
    let mut nodes = Vec::new(alloc);
    met[start as usize] = true;
    nodes.push(start)?;
    let mut end = start;
    while let Some(next) = unmet(steps, met, end) {
        met[next as usize] = true;
        nodes.push(next)?;
        end = next;
    }
    Ok(Walk { nodes, end })
}

/// The node to which one leads, where that wasn't met.
fn unmet(steps: &[Option<u32>], met: &[bool], node: u32) -> Option<u32>
    requires inside { StayInside steps.now }
    requires marks { length met.now ≡ length steps.now }
    requires node { node < length steps.now }
    ensures ends { MatchOption result (EndsAt steps.now met.now node)
        (λ next. Leads steps.now node next) }
    ensures unmet { MatchOption result (Unit {0}) (λ next. slice_get met.now next ≡ Some false) }
{
    match steps[node as usize] {
        None => None,
        Some(next) => {
            if met[next as usize] {
                return None;
            }
            Some(next)
        }
    }
}

/// Gives each node of a walk, which ends at `end`, its last one.
fn settle(steps: &[Option<u32>], met: &[bool], last: &mut [u32], nodes: &[u32], end: u32)
    requires inside { StayInside steps.now }
    requires walk { AreOpen steps.now met.now last.old end nodes.now }
    ensures { AreSettled steps.now met.now last.new }
{
    let _ = met;
    match steps[end as usize] {
        None => give_all(last, nodes, end),
        Some(next) => match place_of(nodes, next) {
            None => {
                let known = last[next as usize];
                give_all(last, nodes, known);
            }
            Some(at) => {
                let (before, round) = nodes.split_at(at);
                give_all(last, before, end);
                turn(last, round, end);
            }
        },
    }
}

/// Gives each node of a list that end.
fn give_all(last: &mut [u32], nodes: &[u32], end: u32)
    requires { All (λ node. node < length last.old) nodes.now }
    ensures { GetEnd last.old last.new end nodes.now }
{
    for node in nodes {
        last[*node as usize] = end;
    }
}

/// Gives each node of a loop the one before it, and the first one `end`.
fn turn(last: &mut [u32], nodes: &[u32], end: u32)
    requires inside { All (λ node. node < length last.old) nodes.now }
    requires once { Once nodes.now }
    ensures { Turns last.old last.new end nodes.now }
{
    let mut before = end;
    for node in nodes {
        last[*node as usize] = before;
        before = *node;
    }
}

/// The place of a node in a list.
fn place_of(nodes: &[u32], node: u32) -> Option<usize>
    ensures { MatchOption result (Has nodes.now node → ⊥)
        (λ at. slice_get nodes.now at ≡ Some node) }
{
    for (at, here) in nodes.iter().enumerate() {
        if *here == node {
            return Some(at);
        }
    }
    None
}
