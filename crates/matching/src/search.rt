ghost use Rattle.std.specs.Prelude.{◌≡◌, ◌+◌, ◌<◌, ◌≤◌, ◌^◌, ℕ, IfOk, IfSome, IfNone, MatchOption, Option, Some, None, Contains, length, slice_index, slice_index_or, vec_len, [], ◌∷◌, true, false};
ghost use Rattle.matching.specs.Inside.{AreRows, AreCursors, AreClear, IsTrail, AreScanned, AreOwners, IsCovered, AreCovered, IsReach, Extends, IsWayOut, row_at, right_at};

use crate::rows::Rows;
use std::alloc::{AllocError, Global};

/// Left numbers that are one more than all the right numbers that go with any of them, and these
/// right numbers. No number stands there twice.
#[derive(Debug, Drop)]
pub struct Violator {
    pub lefts: Vec<u32>,
    pub rights: Vec<u32>,
}

/// A search so far.
#[derive(Drop)]
pub(crate) struct Trail {
    /// An unplaced left number, and then the owner of each right number that was reached.
    pub(crate) lefts: Vec<u32>,
    pub(crate) rights: Vec<u32>,
    /// For each right number the place of the left number whose row reached it.
    pub(crate) from: Vec<usize>,
}

impl Trail {
    pub(crate) fn from_left(alloc: Global, left: u32) -> Result<Trail, AllocError>
        ensures lefts { IfOk result (λ trail. trail.lefts.items ≡ left ∷ []) }
        ensures rights { IfOk result (λ trail. trail.rights.items ≡ []) }
        ensures from { IfOk result (λ trail. trail.from.items ≡ []) }
    {
        Ok(Trail {
            lefts: vec![in alloc; left]?,
            rights: Vec::new(alloc),
            from: Vec::new(alloc),
        })
    }
}

/// The end of a search: a right number that nobody has, reached from the row of the left number
/// at that place.
#[derive(Clone, Copy)]
pub(crate) struct WayOut {
    pub(crate) right: u32,
    pub(crate) at: usize,
}

/// Reaches out from the trail's left numbers, one after the other, to all right numbers of their
/// rows, until one is met that nobody has, or one whose owner's row has one. Each row is gone
/// through once.
pub(crate) fn search(
    rows: &Rows,
    owner: &[Option<u32>],
    cursor: &mut [usize],
    seen: &mut [bool],
    scanned: &mut [bool],
    trail: &mut Trail,
) -> Result<Option<WayOut>, AllocError>
    requires rows { AreRows rows.now.of.items rows.now.pairs.items rows.now.head.items
        rows.now.next.items (length owner.now) }
    requires owners { AreOwners rows.now.of.items owner.now }
    requires cursors { AreCursors rows.now.pairs.items cursor.old (vec_len rows.now.head) }
    requires trail { IsTrail rows.now.of.items rows.now.pairs.items owner.now trail.old.lefts.items
        trail.old.rights.items trail.old.from.items }
    requires begin { trail.old.rights.items ≡ [] }
    requires seen { AreClear seen.old (length owner.now) }
    requires scanned { AreClear scanned.old (vec_len rows.now.head) }
    ensures cursors { AreCursors rows.now.pairs.items cursor.new (vec_len rows.now.head) }
    ensures first { Extends trail.old.lefts.items trail.new.lefts.items }
    ensures reach { IsReach rows.now.of.items (length owner.now) trail.new.lefts.items
        trail.new.rights.items seen.new }
    ensures scanned { AreScanned rows.now.of.items trail.new.lefts.items scanned.new }
    ensures trail { IfOk result (λ _. IsTrail rows.now.of.items rows.now.pairs.items owner.now
        trail.new.lefts.items trail.new.rights.items trail.new.from.items) }
    ensures free { IfOk result (λ found. IfSome found
        (λ out. IsWayOut rows.now.of.items rows.now.pairs.items owner.now trail.new.lefts.items
        out.right out.at)) }
    ensures stuck { IfOk result (λ found. IfNone found
        ((k : ℕ) → k < vec_len trail.new.lefts → IsCovered rows.now.pairs.items seen.new
        (slice_index rows.now.of.items (slice_index trail.new.lefts.items k)))) }
{
    let mut at = 0;
    while at < trail.lefts.len() {
        if let Some(out) = visit(rows, owner, cursor, at, seen, scanned, trail)? {
            return Ok(Some(out));
        }
        at += 1;
    }
    Ok(None)
}

/// Reaches all right numbers of the row of the left number at that place, unless the row was gone
/// through; or answers a way out.
fn visit(
    rows: &Rows,
    owner: &[Option<u32>],
    cursor: &mut [usize],
    at: usize,
    seen: &mut [bool],
    scanned: &mut [bool],
    trail: &mut Trail,
) -> Result<Option<WayOut>, AllocError>
    requires rows { AreRows rows.now.of.items rows.now.pairs.items rows.now.head.items
        rows.now.next.items (length owner.now) }
    requires owners { AreOwners rows.now.of.items owner.now }
    requires cursors { AreCursors rows.now.pairs.items cursor.old (vec_len rows.now.head) }
    requires trail { IsTrail rows.now.of.items rows.now.pairs.items owner.now trail.old.lefts.items
        trail.old.rights.items trail.old.from.items }
    requires reach { IsReach rows.now.of.items (length owner.now) trail.old.lefts.items
        trail.old.rights.items seen.old }
    requires at { at < vec_len trail.old.lefts }
    requires marks { length scanned.old ≡ vec_len rows.now.head }
    requires scanned { AreScanned rows.now.of.items trail.old.lefts.items scanned.old }
    requires covered { AreCovered rows.now.pairs.items seen.old scanned.old }
    ensures cursors { AreCursors rows.now.pairs.items cursor.new (vec_len rows.now.head) }
    ensures first { Extends trail.old.lefts.items trail.new.lefts.items }
    ensures reach { IsReach rows.now.of.items (length owner.now) trail.new.lefts.items
        trail.new.rights.items seen.new }
    ensures trail { IfOk result (λ _. IsTrail rows.now.of.items rows.now.pairs.items owner.now
        trail.new.lefts.items trail.new.rights.items trail.new.from.items) }
    ensures free { IfOk result (λ found. IfSome found
        (λ out. IsWayOut rows.now.of.items rows.now.pairs.items owner.now trail.new.lefts.items
        out.right out.at)) }
    ensures scanned { AreScanned rows.now.of.items trail.new.lefts.items scanned.new }
    ensures kept { (row : ℕ) → slice_index_or scanned.old row false ≡ true → slice_index_or
        scanned.new row false ≡ true }
    ensures here { slice_index_or scanned.new (slice_index rows.now.of.items
        (slice_index trail.old.lefts.items at)) false ≡ true }
    ensures covered { IfOk result (λ found. IfNone found
        (AreCovered rows.now.pairs.items seen.new scanned.new)) }
{
    let row = rows.of[trail.lefts[at] as usize] as usize;
    if scanned[row] {
        return Ok(None);
    }
    scanned[row] = true;
    scan(rows, owner, cursor, at, seen, trail)
}

/// Reaches all right numbers of the row of the left number at that place, or answers a way out.
fn scan(
    rows: &Rows,
    owner: &[Option<u32>],
    cursor: &mut [usize],
    at: usize,
    seen: &mut [bool],
    trail: &mut Trail,
) -> Result<Option<WayOut>, AllocError>
    requires rows { AreRows rows.now.of.items rows.now.pairs.items rows.now.head.items
        rows.now.next.items (length owner.now) }
    requires owners { AreOwners rows.now.of.items owner.now }
    requires cursors { AreCursors rows.now.pairs.items cursor.old (vec_len rows.now.head) }
    requires trail { IsTrail rows.now.of.items rows.now.pairs.items owner.now trail.old.lefts.items
        trail.old.rights.items trail.old.from.items }
    requires reach { IsReach rows.now.of.items (length owner.now) trail.old.lefts.items
        trail.old.rights.items seen.old }
    requires at { at < vec_len trail.old.lefts }
    ensures cursors { AreCursors rows.now.pairs.items cursor.new (vec_len rows.now.head) }
    ensures first { Extends trail.old.lefts.items trail.new.lefts.items }
    ensures reach { IsReach rows.now.of.items (length owner.now) trail.new.lefts.items
        trail.new.rights.items seen.new }
    ensures trail { IfOk result (λ _. IsTrail rows.now.of.items rows.now.pairs.items owner.now
        trail.new.lefts.items trail.new.rights.items trail.new.from.items) }
    ensures free { IfOk result (λ found. IfSome found
        (λ out. IsWayOut rows.now.of.items rows.now.pairs.items owner.now trail.new.lefts.items
        out.right out.at)) }
    ensures kept { (r : ℕ) → slice_index_or seen.old r false ≡ true → slice_index_or seen.new r
        false ≡ true }
    ensures covered { IfOk result (λ found. IfNone found
        (IsCovered rows.now.pairs.items seen.new (slice_index rows.now.of.items
        (slice_index trail.old.lefts.items at)))) }
{
    let row = rows.of[trail.lefts[at] as usize];
    let mut pair = rows.head[row as usize];
    while pair < rows.pairs.len() {
        if let Some(out) = reach(rows, owner, cursor, at, pair, seen, trail)? {
            return Ok(Some(out));
        }
        pair = rows.next[pair];
    }
    Ok(None)
}

/// Reaches the right number of a pair from the left number at that place. It answers a way out
/// where nobody has that number, or where the row of its owner has another that nobody has.
fn reach(
    rows: &Rows,
    owner: &[Option<u32>],
    cursor: &mut [usize],
    at: usize,
    pair: usize,
    seen: &mut [bool],
    trail: &mut Trail,
) -> Result<Option<WayOut>, AllocError>
    requires rows { AreRows rows.now.of.items rows.now.pairs.items rows.now.head.items
        rows.now.next.items (length owner.now) }
    requires owners { AreOwners rows.now.of.items owner.now }
    requires cursors { AreCursors rows.now.pairs.items cursor.old (vec_len rows.now.head) }
    requires trail { IsTrail rows.now.of.items rows.now.pairs.items owner.now trail.old.lefts.items
        trail.old.rights.items trail.old.from.items }
    requires reach { IsReach rows.now.of.items (length owner.now) trail.old.lefts.items
        trail.old.rights.items seen.old }
    requires at { at < vec_len trail.old.lefts }
    requires pair { pair < vec_len rows.now.pairs }
    requires row { row_at rows.now.pairs.items pair
        ≡ (slice_index rows.now.of.items (slice_index trail.old.lefts.items at)) }
    ensures cursors { AreCursors rows.now.pairs.items cursor.new (vec_len rows.now.head) }
    ensures first { Extends trail.old.lefts.items trail.new.lefts.items }
    ensures reach { IsReach rows.now.of.items (length owner.now) trail.new.lefts.items
        trail.new.rights.items seen.new }
    ensures trail { IfOk result (λ _. IsTrail rows.now.of.items rows.now.pairs.items owner.now
        trail.new.lefts.items trail.new.rights.items trail.new.from.items) }
    ensures free { IfOk result (λ found. IfSome found
        (λ out. IsWayOut rows.now.of.items rows.now.pairs.items owner.now trail.new.lefts.items
        out.right out.at)) }
    ensures kept { (r : ℕ) → slice_index_or seen.old r false ≡ true → slice_index_or seen.new r
        false ≡ true }
    ensures reached { IfOk result (λ found. IfNone found
        (slice_index_or seen.new (right_at rows.now.pairs.items pair) false ≡ true)) }
{
    let right = rows.pairs[pair].1;
    if seen[right as usize] {
        return Ok(None);
    }
    let Some(left) = owner[right as usize] else {
        return Ok(Some(WayOut { right, at }));
    };
    trail.rights.push(right)?;
    seen[right as usize] = true;
    trail.lefts.push(left)?;
    trail.from.push(at)?;
    Ok(last_way_out(rows, owner, cursor, trail))
}

/// A right number that nobody has in the row of the trail's last left number.
fn last_way_out(
    rows: &Rows,
    owner: &[Option<u32>],
    cursor: &mut [usize],
    trail: &Trail,
) -> Option<WayOut>
    requires rows { AreRows rows.now.of.items rows.now.pairs.items rows.now.head.items
        rows.now.next.items (length owner.now) }
    requires cursors { AreCursors rows.now.pairs.items cursor.old (vec_len rows.now.head) }
    requires trail { IsTrail rows.now.of.items rows.now.pairs.items owner.now trail.now.lefts.items
        trail.now.rights.items trail.now.from.items }
    ensures cursors { AreCursors rows.now.pairs.items cursor.new (vec_len rows.now.head) }
    ensures free { IfSome result (λ out. IsWayOut rows.now.of.items rows.now.pairs.items owner.now
        trail.now.lefts.items out.right out.at) }
{
    let at = trail.lefts.len() - 1;
    let row = rows.of[trail.lefts[at] as usize];
    let right = rows.next_free(owner, cursor, row)?;
    Some(WayOut { right, at })
}

/// Takes back the marks of the right numbers that a search reached.
pub(crate) fn clear_rights(rights: &[u32], seen: &mut [bool])
    requires within { (k : ℕ) → k < length rights.now → slice_index rights.now k < length seen.old }
    requires reached { (r : ℕ) → slice_index_or seen.old r false ≡ true → Contains rights.now r }
    ensures { AreClear seen.new (length seen.old) }
{
    for right in rights {
        seen[*right as usize] = false;
    }
}

/// Takes back the marks of the rows that a search went through.
pub(crate) fn clear_rows(rows: &Rows, lefts: &[u32], scanned: &mut [bool])
    requires lefts { (k : ℕ) → k < length lefts.now → slice_index lefts.now k < vec_len
        rows.now.of }
    requires rows { (l : ℕ) → l < vec_len rows.now.of → slice_index rows.now.of.items l < length
        scanned.old }
    requires marked { AreScanned rows.now.of.items lefts.now scanned.old }
    ensures { AreClear scanned.new (length scanned.old) }
{
    for left in lefts {
        scanned[rows.of[*left as usize] as usize] = false;
    }
}
