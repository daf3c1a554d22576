ghost use Rattle.std.specs.Prelude.{◌≡◌, ◌<◌, ◌≤◌, ◌+◌, ◌-◌, ◌^◌, ℕ, List, [], ◌∷◌, ◌++◌, length, take, slice_index, ◌↔◌, All, Contains, IfOk, IsTrue, MatchOption};
ghost use Rattle.link_lists.specs.Members.{Membership, IsLinked, IsFirstFrom, HasNoneFrom, IsSoundMembership};
ghost use Rattle.link_lists.specs.Links.{AreLinksInArrays};

use crate::heads::{follower, put_behind};
use std::alloc::{AllocError, Global};
use std::marker::Model;

/// Positions in lists: each position belongs to one list, its owner's, and a list holds, in
/// ascending order, the positions of its owner that aren't unlinked.
///
/// These are Knuth's dancing links ("Dancing Links", 2000): an unlinked position keeps its own
/// links, so that relinking writes it back between its old neighbours. So unlinks are undone from
/// the last to the first. No call but `with_room` takes memory. Each other call takes a fixed
/// number of steps, `relink_to` so many for each position that it relinks.
#[derive(Drop)]
pub struct Lists {
    lists: u32,
    owner: Vec<u32>,
    /// What follows each position in its list. The end of a list is written as the number of
    /// positions, here and below.
    next: Vec<u32>,
    /// What each list begins with.
    firsts: Vec<u32>,
    /// What each position follows in its list: the end, where the list begins with it. Behind these
    /// stands one that nothing reads, so that what comes before the end can be written too.
    prev: Vec<u32>,
    unlinked: Vec<u32>,
}

impl Model for Lists {
    ghost use Rattle.std.specs.Prelude.{vec_capacity};
    ghost use Rattle.link_lists.specs.Members.{Membership};
    ghost use Rattle.link_lists.specs.Links.{IsLinkageInArrays};

    ghost Value = { Membership };

    ghost view = { λ a. record {
      lists = a.lists;
      owner = a.owner.items;
      unlinked = a.unlinked.items;
    } };

    ghost invariant = { λ a. IsLinkageInArrays a.lists a.owner.items a.next.items a.firsts.items
        a.prev.items a.unlinked.items
        (vec_capacity a.unlinked) };
}

impl Lists {
    /// So many lists, with position i in list `owner[i]`, and room to unlink every position.
    pub fn with_room(alloc: Global, lists: u32, owner: &[u32]) -> Result<Lists, AllocError>
        requires owners { All (λ list. list < lists) owner.now }
        requires few { length owner.now < 2 ^ 32 }
        ensures { IfOk result (λ made. made ≡ record
            { lists = lists; owner = owner.now; unlinked = [] }) }
    {
        let end = owner.len() as u32;
        let mut next = vec![in alloc; end; owner.len()]?;
        let mut firsts = vec![in alloc; end; lists as usize]?;
        let mut prev = vec![in alloc; end; owner.len() + 1]?;
        link_all(
            owner,
            next.as_mut_slice(),
            firsts.as_mut_slice(),
            prev.as_mut_slice(),
        );
        Ok(Lists {
            lists,
            owner: Vec::from_slice(alloc, owner)?,
            next,
            firsts,
            prev,
            unlinked: Vec::with_capacity(alloc, owner.len())?,
        })
    }

    /// Tells a caller's proof what holds of all lists. It does nothing.
    pub fn law(&self)
        ensures { IsSoundMembership self.now }
    {
        let _ = &self.lists;
    }

    /// The list to which a position belongs, linked or not.
    pub fn owner(&self, i: u32) -> u32
        requires { i < length self.now.owner }
        ensures { result ≡ slice_index self.now.owner i }
    {
        self.owner[i as usize]
    }

    /// Whether a position stands in its list, in a fixed number of steps: then what it followed
    /// when it was linked last still leads to it.
    pub fn is_linked(&self, i: u32) -> bool
        requires { i < length self.now.owner }
        ensures { IsTrue result ↔ IsLinked self.now i }
    {
        let list = self.owner[i as usize];
        let before = self.prev[i as usize];
        follower(&self.next, &self.firsts, list, before) == i
    }

    /// Takes a position out of its list.
    pub fn unlink(&mut self, i: u32)
        requires { IsLinked self.old i }
        ensures { self.new ≡ record self.old { unlinked = self.old.unlinked ++ i ∷ [] } }
    {
        let list = self.owner[i as usize];
        let before = self.prev[i as usize];
        let after = self.next[i as usize];
        put_behind(&mut self.next, &mut self.firsts, list, before, after);
        self.prev[after as usize] = before;
        self.unlinked.push_reserved(i);
    }

    /// Puts a position back into its list, to where it stood: the position that was unlinked last,
    /// of those that aren't relinked. It gives back the lists as they were before that unlink.
    pub fn relink(&mut self, i: u32)
        requires { (before : List ℕ) × (self.old.unlinked ≡ before ++ i ∷ []) }
        ensures undone { self.old ≡ record self.new { unlinked = self.new.unlinked ++ i ∷ [] } }
        ensures after { self.new ≡ record self.old
            { unlinked = take (length self.old.unlinked - 1) self.old.unlinked } }
    {
        let list = self.owner[i as usize];
        let before = self.prev[i as usize];
        let after = self.next[i as usize];
        put_behind(&mut self.next, &mut self.firsts, list, before, i);
        self.prev[after as usize] = i;
        let _ = self.unlinked.pop();
    }

    /// Relinks the positions that were unlinked last, from the last on, down to so many that stay
    /// unlinked.
    pub fn relink_to(&mut self, count: usize)
        requires { count ≤ length self.old.unlinked }
        ensures { self.new ≡ record self.old { unlinked = take count self.old.unlinked } }
    {
        for k in (count..self.unlinked.len()).rev() {
            let last = self.unlinked[k];
            self.relink(last);
        }
    }

    /// The unlinked positions, in the order of their unlinks.
    pub fn unlinked(&self) -> &[u32]
        ensures { result.now ≡ self.now.unlinked }
    {
        self.unlinked.as_slice()
    }

    /// The first position of a list.
    pub fn first(&self, list: u32) -> Option<u32>
        requires { list < self.now.lists }
        ensures { MatchOption result (HasNoneFrom self.now list 0) (IsFirstFrom self.now list 0) }
    {
        let first = self.firsts[list as usize];
        if (first as usize) < self.owner.len() {
            Some(first)
        } else {
            None
        }
    }

    /// The position that follows a linked one in its list.
    pub fn next(&self, i: u32) -> Option<u32>
        requires { IsLinked self.now i }
        ensures { MatchOption result (HasNoneFrom self.now (slice_index self.now.owner i) (i + 1))
            (IsFirstFrom self.now (slice_index self.now.owner i) (i + 1)) }
    {
        let next = self.next[i as usize];
        if (next as usize) < self.owner.len() {
            Some(next)
        } else {
            None
        }
    }
}

/// Links every position into its list, from the last to the first, each in front of those that are
/// linked. The arrays are those of lists that hold nothing.
fn link_all(owner: &[u32], next: &mut [u32], firsts: &mut [u32], prev: &mut [u32])
    requires few { length owner.now < 2 ^ 32 }
    requires lists { All (λ list. list < length firsts.old) owner.now }
    requires follow { length next.old ≡ length owner.now }
    requires lead { length prev.old ≡ length owner.now + 1 }
    requires none { All (λ j. j ≡ length owner.now) next.old }
    requires none_first { All (λ j. j ≡ length owner.now) firsts.old }
    requires none_before { All (λ j. j ≡ length owner.now) prev.old }
    ensures lists { length firsts.new ≡ length firsts.old }
    ensures links { AreLinksInArrays owner.now (Contains []) next.new firsts.new prev.new }
{
    let end = owner.len() as u32;
    for i in (0..owner.len()).rev() {
        let list = owner[i] as usize;
        let after = firsts[list];
        next[i] = after;
        prev[i] = end;
        firsts[list] = i as u32;
        prev[after as usize] = i as u32;
    }
}
