ghost use Rattle.std.specs.Prelude.{◌≡◌, ◌<◌, ◌≤◌, ◌^◌, ℕ, All, IfOk, OnErr, MatchOption, Option, Some, None, IsSome, IfSome, IfNone, OnSome, Contains, length, replicate, slice_index, slice_index_or, slice_set, vec_len};
ghost use Rattle.std.specs.Bool.{OnTrue, OnFalse};
ghost use Rattle.matching.specs.Bipartite.{Graph, State, GoTogether, IsPlacing, HasNoPlacing, IsViolator, IsPartial, IsSameGraph, AddsLeft, KeepsOwners, AllPlaced, place_of, owner_of};

use crate::moves::shift;
use crate::rows::Rows;
use crate::search::{Trail, Violator, clear_rights, clear_rows, search};
use std::alloc::{AllocError, Global};
use std::marker::Model;

/// A partial placing of left numbers on right ones. Left numbers have rows of right numbers that
/// go with them; several may share a row. A left number that was placed stays placed, and a right
/// number that has an owner keeps one, unless `take_back` takes them apart.
#[derive(Drop)]
pub struct Matching {
    rows: Rows,
    /// For each row a pair of it, in front of which no right number is free but those that were
    /// given back since the cursor passed them.
    cursor: Vec<usize>,
    place: Vec<Option<u32>>,
    owner: Vec<Option<u32>>,
    /// Right numbers that a search reached, and rows that it went through; none between calls.
    seen: Vec<bool>,
    scanned: Vec<bool>,
}

impl Model for Matching {
    ghost use Rattle.matching.specs.Bipartite.{State};

    ghost Value = { State };

    ghost use Rattle.matching.specs.View.{state_of, IsWell};

    ghost view = { state_of };

    ghost invariant = { IsWell };
}

impl Matching {
    /// A matching in which nothing is placed. `rows` gives each left number its row, `pairs` what
    /// right numbers a row has; a pair that is listed twice counts once.
    pub fn new(
        alloc: Global,
        rows: Vec<u32>,
        row_count: u32,
        pairs: Vec<(u32, u32)>,
        right_count: u32,
    ) -> Result<Matching, AllocError>
        requires rows { All (λ row. row < row_count) rows.items }
        requires pairs { All (λ p. (p.0 < row_count) × (p.1 < right_count)) pairs.items }
        requires few_lefts { vec_len rows < 2 ^ 32 }
        ensures { IfOk result (λ m. m ≡ record {
          graph = record { rows = rows.items; pairs = pairs.items };
          place = replicate (vec_len rows) None;
          owner = replicate right_count None;
        }) }
    {
        let left_count = rows.len();
        let rows = Rows::new(alloc, rows, row_count, pairs)?;
        Ok(Matching {
            cursor: rows.head.clone()?,
            rows,
            place: vec![in alloc; None; left_count]?,
            owner: vec![in alloc; None; right_count as usize]?,
            seen: vec![in alloc; false; right_count as usize]?,
            scanned: vec![in alloc; false; row_count as usize]?,
        })
    }

    /// What is known of every matching.
    pub fn law(&self)
        ensures { IsPartial self.now.graph self.now.place self.now.owner }
    {
        let _ = &self.place;
    }

    /// Where a left number is placed.
    pub fn right_of(&self, left: u32) -> Option<u32>
        requires { left < length self.now.place }
        ensures { result ≡ place_of self.now left }
    {
        self.place[left as usize]
    }

    /// Which left number a right number has.
    pub fn owner_of(&self, right: u32) -> Option<u32>
        requires { right < length self.now.owner }
        ensures { result ≡ owner_of self.now right }
    {
        self.owner[right as usize]
    }

    /// Places a left number on a free right one that goes with it.
    pub fn put(&mut self, left: u32, right: u32)
        requires joined { GoTogether self.old.graph left right }
        requires unplaced { place_of self.old left ≡ None }
        requires free { owner_of self.old right ≡ None }
        ensures { self.new ≡ record self.old {
          place = slice_set self.old.place left (Some right);
          owner = slice_set self.old.owner right (Some left);
        } }
    {
        self.place[left as usize] = Some(right);
        self.owner[right as usize] = Some(left);
    }

    /// Takes a left number off its right one, and answers that. A row's cursor that has passed the
    /// right number doesn't come back to it, but a search of `augment` finds it.
    pub fn take_back(&mut self, left: u32) -> Option<u32>
        requires { left < length self.old.place }
        ensures was { result ≡ place_of self.old left }
        ensures after { MatchOption result (self.new ≡ self.old)
            (λ right. self.new ≡ record self.old {
              place = slice_set self.old.place left None;
              owner = slice_set self.old.owner right None;
            }) }
    {
        let right = self.place[left as usize]?;
        self.place[left as usize] = None;
        self.owner[right as usize] = None;
        Some(right)
    }

    /// Places a left number, and moves others where that is needed; or answers left numbers, this
    /// one among them, that outnumber the right ones that go with them. A free right number is
    /// taken where the row has one. Else a search goes at most once through each row that it
    /// reaches, and ends at the first owner whose row has a free right number.
    pub fn augment(&mut self, alloc: Global, left: u32) -> Result<Option<Violator>, AllocError>
        requires within { left < length self.old.place }
        requires unplaced { place_of self.old left ≡ None }
        ensures graph { IsSameGraph self.old self.new }
        ensures placed { IfOk result (λ stuck. IfNone stuck
            (AddsLeft self.old.place self.new.place left)) }
        ensures owners { KeepsOwners self.old.owner self.new.owner }
        ensures violator { IfOk result (λ stuck. IfSome stuck
            (λ v. IsViolator self.new.graph v.lefts.items v.rights.items)) }
        ensures itself { IfOk result (λ stuck. IfSome stuck (λ v. Contains v.lefts.items left)) }
        ensures none { IfOk result (λ stuck. IfSome stuck (λ _. HasNoPlacing self.new.graph)) }
        ensures unchanged { IfOk result (λ stuck. OnSome stuck (self.new ≡ self.old)) }
        ensures err { OnErr result (self.new ≡ self.old) }
    {
        if self.take_free(left) {
            return Ok(None);
        }
        let mut trail = Trail::from_left(alloc, left)?;
        let found = search(
            &self.rows,
            &self.owner,
            &mut self.cursor,
            &mut self.seen,
            &mut self.scanned,
            &mut trail,
        );
        clear_rights(&trail.rights, &mut self.seen);
        clear_rows(&self.rows, &trail.lefts, &mut self.scanned);
        match found? {
            Some(out) => {
                shift(&self.rows, &mut self.place, &mut self.owner, &trail, out);
                Ok(None)
            }
            None => Ok(Some(Violator {
                lefts: trail.lefts,
                rights: trail.rights,
            })),
        }
    }

    /// Places a left number on a free right one of its row, where there is one.
    fn take_free(&mut self, left: u32) -> bool
        requires within { left < length self.old.place }
        requires unplaced { place_of self.old left ≡ None }
        ensures graph { IsSameGraph self.old self.new }
        ensures placed { OnTrue result (AddsLeft self.old.place self.new.place left) }
        ensures owners { KeepsOwners self.old.owner self.new.owner }
        ensures unchanged { OnFalse result (self.new ≡ self.old) }
    {
        let row = self.rows.of[left as usize];
        match self.rows.next_free(&self.owner, &mut self.cursor, row) {
            Some(right) => {
                self.put(left, right);
                true
            }
            None => false,
        }
    }

    /// Places all left numbers that aren't placed, one after the other; or answers left numbers
    /// that outnumber the right ones that go with them, since there is no placing of all then.
    pub fn complete(&mut self, alloc: Global) -> Result<Option<Violator>, AllocError>
        ensures graph { IsSameGraph self.old self.new }
        ensures kept { (l : ℕ) → IsSome (place_of self.old l) → IsSome (place_of self.new l) }
        ensures owners { KeepsOwners self.old.owner self.new.owner }
        ensures placed { IfOk result (λ stuck. IfNone stuck (AllPlaced self.new.place)) }
        ensures violator { IfOk result (λ stuck. IfSome stuck
            (λ v. IsViolator self.new.graph v.lefts.items v.rights.items)) }
        ensures none { IfOk result (λ stuck. IfSome stuck (λ _. HasNoPlacing self.new.graph)) }
    {
        for left in 0..self.place.len() {
            if let Some(violator) = self.place_left(alloc, left)? {
                return Ok(Some(violator));
            }
        }
        Ok(None)
    }

    /// Places a left number unless it is placed.
    fn place_left(&mut self, alloc: Global, left: usize) -> Result<Option<Violator>, AllocError>
        requires { left < length self.old.place }
        ensures graph { IsSameGraph self.old self.new }
        ensures kept { (l : ℕ) → IsSome (place_of self.old l) → IsSome (place_of self.new l) }
        ensures owners { KeepsOwners self.old.owner self.new.owner }
        ensures placed { IfOk result (λ stuck. IfNone stuck (IsSome (place_of self.new left))) }
        ensures violator { IfOk result (λ stuck. IfSome stuck
            (λ v. IsViolator self.new.graph v.lefts.items v.rights.items)) }
        ensures none { IfOk result (λ stuck. IfSome stuck (λ _. HasNoPlacing self.new.graph)) }
    {
        if self.place[left].is_some() {
            return Ok(None);
        }
        self.augment(alloc, left as u32)
    }

    /// The right numbers on which the left ones are placed.
    pub fn answer(&self, alloc: Global) -> Result<Vec<u32>, AllocError>
        requires { AllPlaced self.now.place }
        ensures placing { IfOk result (λ answer. IsPlacing self.now.graph answer.items) }
        ensures same { IfOk result (λ answer. (l : ℕ) → l < length self.now.place → place_of
            self.now l ≡ Some (slice_index answer.items l)) }
    {
        let mut answer = Vec::with_capacity(alloc, self.place.len())?;
        for place in &self.place {
            if let Some(right) = place {
                answer.push(*right)?;
            }
        }
        Ok(answer)
    }
}
