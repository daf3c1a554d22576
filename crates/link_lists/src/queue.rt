ghost use Rattle.std.specs.Prelude.{◌≡◌, ◌<◌, ◌≤◌, ◌+◌, ◌%◌, ◌^◌, ℕ, ◌↔◌, Some, None, length, replicate, slice_index_or, slice_set, IsSomeAnd, IsTrue, IfOk, MatchOption};
ghost use Rattle.link_lists.specs.Queued.{Queued, cost_of, IsLeast, IsEmpty, IsSoundQueue};

use crate::bits::{WORD, insert, next_around, remove};
use crate::heads::put_behind;
use std::alloc::{AllocError, Global};
use std::marker::Model;

/// A monotone queue of items by cost: no cost is pushed below the cost popped last, nor more than
/// the span above it.
///
/// The items lie in buckets by cost modulo `span + 1`, as in Dial's algorithm ("Algorithm 360",
/// 1969), each bucket a doubly linked list. `push` and `lower` take a fixed number of steps.
/// `pop_least` finds the bucket of the least cost by words of bits, 64 buckets at a time, from the
/// bucket of the cost popped last on; where nothing is queued it looks at none.
/// No call but `with_room` takes memory.
#[derive(Drop)]
pub struct BucketQueue {
    span: u32,
    popped: u64,
    /// How many items are queued.
    queued: usize,
    costs: Vec<Option<u64>>,
    /// What follows each item in its bucket. The end of a bucket is written as the number of items,
    /// here and below.
    next: Vec<u32>,
    /// What each bucket begins with.
    firsts: Vec<u32>,
    /// What each item follows in its bucket: the end, where the bucket begins with it. Behind these
    /// stands one that nothing reads, so that what comes before the end can be written too.
    prev: Vec<u32>,
    /// The set of the buckets in which there is an item.
    filled: Vec<u64>,
}

impl Model for BucketQueue {
    ghost use Rattle.link_lists.specs.Queued.{Queued};
    ghost use Rattle.link_lists.specs.Buckets.{IsQueueInArrays};

    ghost Value = { Queued };

    ghost view = { λ a. record { span = a.span; popped = a.popped; costs = a.costs.items } };

    ghost invariant = { λ a. IsQueueInArrays a.span a.popped a.queued a.costs.items a.next.items
        a.firsts.items a.prev.items
        a.filled.items };
}

impl BucketQueue {
    /// A queue for so many items, none of them queued, whose costs lie up to `span` above the cost
    /// popped last, which is 0 at first.
    pub fn with_room(alloc: Global, items: u32, span: u32) -> Result<BucketQueue, AllocError>
        ensures { IfOk result (λ made. made ≡ record
            { span = span; popped = 0; costs = replicate items None }) }
    {
        Ok(BucketQueue {
            span,
            popped: 0,
            queued: 0,
            costs: vec![in alloc; None; items as usize]?,
            next: vec![in alloc; items; items as usize]?,
            firsts: vec![in alloc; items; span as usize + 1]?,
            prev: vec![in alloc; items; items as usize + 1]?,
            filled: vec![in alloc; 0; span as usize / WORD + 1]?,
        })
    }

    /// Tells a caller's proof what holds of all queues. It does nothing.
    pub fn law(&self)
        ensures { IsSoundQueue self.now }
    {
        let _ = &self.span;
    }

    /// Whether nothing is queued.
    pub fn is_empty(&self) -> bool
        ensures { IsTrue result ↔ IsEmpty self.now }
    {
        self.queued == 0
    }

    /// The cost at which an item is queued, if it is.
    pub fn cost_of(&self, i: u32) -> Option<u64>
        requires { i < length self.now.costs }
        ensures { result ≡ cost_of self.now i }
    {
        self.costs[i as usize]
    }

    /// Queues an item.
    pub fn push(&mut self, i: u32, cost: u64)
        requires within { i < length self.old.costs }
        requires free { cost_of self.old i ≡ None }
        requires low { self.old.popped ≤ cost }
        requires high { cost ≤ self.old.popped + self.old.span }
        ensures { self.new ≡ record self.old { costs = slice_set self.old.costs i (Some cost) } }
    {
        let bucket = bucket_of(cost, self.span) as usize;
        let after = self.firsts[bucket];
        self.next[i as usize] = after;
        self.prev[i as usize] = self.costs.len() as u32;
        self.firsts[bucket] = i;
        self.prev[after as usize] = i;
        self.costs[i as usize] = Some(cost);
        insert(&mut self.filled, bucket);
        self.queued += 1;
    }

    /// Gives a queued item a cost that is no greater than the one at which it is queued.
    pub fn lower(&mut self, i: u32, cost: u64)
        requires within { i < length self.old.costs }
        requires queued { IsSomeAnd (cost_of self.old i) (λ before. cost ≤ before) }
        requires low { self.old.popped ≤ cost }
        ensures { self.new ≡ record self.old { costs = slice_set self.old.costs i (Some cost) } }
    {
        self.law();
        if let Some(before) = self.cost_of(i) {
            self.take_out(i, before);
            self.push(i, cost);
        }
    }

    /// Takes out an item of least cost, with its cost; of several it may be any.
    pub fn pop_least(&mut self) -> Option<(u32, u64)>
        ensures least { MatchOption result (IsEmpty self.old)
            (λ popped. IsLeast self.old popped.0 popped.1) }
        ensures after { MatchOption result (self.new ≡ self.old)
            (λ popped. self.new ≡ record self.old
            { popped = popped.1; costs = slice_set self.old.costs popped.0 None }) }
    {
        self.law();
        if self.is_empty() {
            return None;
        }
        let (item, cost) = self.least()?;
        self.take_out(item, cost);
        self.popped = cost;
        Some((item, cost))
    }

    /// Takes all items out, and lets costs begin at 0 again. It takes out each item that is queued,
    /// as `pop_least` does, and looks at no other.
    pub fn clear(&mut self)
        ensures { self.new ≡ record self.old {
          popped = 0;
          costs = replicate (length self.old.costs)
              None;
        } }
    {
        'items: while self.pop_least().is_some() {}
        self.popped = 0;
    }

    /// Takes an item out of the bucket of the cost at which it is queued.
    fn take_out(&mut self, i: u32, cost: u64)
        requires within { i < length self.old.costs }
        requires queued { cost_of self.old i ≡ Some cost }
        ensures { self.new ≡ record self.old { costs = slice_set self.old.costs i None } }
    {
        let bucket = bucket_of(cost, self.span);
        let before = self.prev[i as usize];
        let after = self.next[i as usize];
        put_behind(&mut self.next, &mut self.firsts, bucket, before, after);
        self.prev[after as usize] = before;
        self.costs[i as usize] = None;
        self.queued -= 1;
        if before as usize >= self.costs.len() && after as usize >= self.costs.len() {
            remove(&mut self.filled, bucket as usize);
        }
    }

    /// An item of least cost, with its cost.
    fn least(&self) -> Option<(u32, u64)>
        ensures { MatchOption result (IsEmpty self.now)
            (λ found. IsLeast self.now found.0 found.1) }
    {
        let from = bucket_of(self.popped, self.span) as usize;
        let Some(bucket) = next_around(&self.filled, from) else {
            return None;
        };
        let item = self.firsts[bucket];
        match cost_at(self.costs.as_slice(), item) {
            Some(cost) => Some((item, cost)),
            None => None,
        }
    }
}

/// The bucket in which a cost lies.
fn bucket_of(cost: u64, span: u32) -> u32
    ensures { result ≡ cost % (span + 1) }
{
    (cost % (u64::from(span) + 1)) as u32
}

/// The cost of an item, where there is that item and it has one.
fn cost_at(costs: &[Option<u64>], item: u32) -> Option<u64>
    ensures { result ≡ slice_index_or costs.now item None }
{
    match costs.get(item as usize) {
        Some(cost) => *cost,
        None => None,
    }
}
