ghost use Rattle.std.specs.Prelude.{◌≡◌, ◌<◌, ◌≤◌, ℕ, All, IfOk, IfSome, Option, None, length, slice_index, slice_index_or, vec_len};
ghost use Rattle.matching.specs.Inside.{AreRows, AreCursors, IsFreeFor, IsFirstOfRow, IsLinked, row_at, right_at};

use std::alloc::{AllocError, Global};

/// The right numbers of each row, as chains through the pairs.
#[derive(Drop)]
pub(crate) struct Rows {
    /// The row of each left number.
    pub(crate) of: Vec<u32>,
    /// Pairs of a row and a right number.
    pub(crate) pairs: Vec<(u32, u32)>,
    /// The first pair of each row, or the number of pairs.
    pub(crate) head: Vec<usize>,
    /// The next pair of the same row, or the number of pairs.
    pub(crate) next: Vec<usize>,
}

impl Rows {
    pub(crate) fn new(
        alloc: Global,
        of: Vec<u32>,
        row_count: u32,
        pairs: Vec<(u32, u32)>,
    ) -> Result<Rows, AllocError>
        requires { All (λ p. p.0 < row_count) pairs.items }
        ensures of { IfOk result (λ rows. rows.of.items ≡ of.items) }
        ensures pairs { IfOk result (λ rows. rows.pairs.items ≡ pairs.items) }
        ensures head { IfOk result (λ rows. vec_len rows.head ≡ row_count) }
        ensures linked { IfOk result (λ rows. IsLinked pairs.items rows.head.items
            rows.next.items) }
    {
        let count = pairs.len();
        let mut head = vec![in alloc; count; row_count as usize]?;
        let mut next = vec![in alloc; 0; count]?;
        link(pairs.as_slice(), &mut head, &mut next);
        Ok(Rows {
            of,
            pairs,
            head,
            next,
        })
    }

    /// A right number of the row that nobody has. The row's cursor moves to its pair, or behind all
    /// pairs, since none in front of it is free.
    pub(crate) fn next_free(
        &self,
        owner: &[Option<u32>],
        cursor: &mut [usize],
        row: u32,
    ) -> Option<u32>
        requires rows { AreRows self.now.of.items self.now.pairs.items self.now.head.items
            self.now.next.items (length owner.now) }
        requires cursors { AreCursors self.now.pairs.items cursor.old (vec_len self.now.head) }
        requires within { row < vec_len self.now.head }
        ensures cursors { AreCursors self.now.pairs.items cursor.new (vec_len self.now.head) }
        ensures free { IfSome result (IsFreeFor self.now.pairs.items owner.now row) }
    {
        let pair = first_free(self, owner, cursor[row as usize]);
        cursor[row as usize] = pair;
        if pair < self.pairs.len() {
            Some(self.pairs[pair].1)
        } else {
            None
        }
    }
}

/// Links the pairs of each row, from the last pair to the first.
fn link(pairs: &[(u32, u32)], head: &mut [usize], next: &mut [usize])
    requires within { All (λ p. p.0 < length head.old) pairs.now }
    requires none { (row : ℕ) → row < length head.old → slice_index head.old row ≡ length
        pairs.now }
    requires room { length next.old ≡ length pairs.now }
    ensures { IsLinked pairs.now head.new next.new }
{
    let mut k = pairs.len();
    while k > 0 {
        k -= 1;
        let row = pairs[k].0 as usize;
        next[k] = head[row];
        head[row] = k;
    }
}

/// The first pair of a chain whose right number nobody has, or the number of pairs.
fn first_free(rows: &Rows, owner: &[Option<u32>], from: usize) -> usize
    requires linked { IsLinked rows.now.pairs.items rows.now.head.items rows.now.next.items }
    requires within { (k : ℕ) → k < vec_len rows.now.pairs → right_at rows.now.pairs.items k
        < length owner.now }
    ensures onward { from ≤ result }
    ensures free { result < vec_len rows.now.pairs → slice_index_or owner.now
        (right_at rows.now.pairs.items result) None ≡ None }
    ensures row { result < vec_len rows.now.pairs → row_at rows.now.pairs.items result ≡ row_at
        rows.now.pairs.items from }
{
    let mut at = from;
    while at < rows.pairs.len() {
        let right = rows.pairs[at].1;
        if owner[right as usize].is_none() {
            break;
        }
        at = rows.next[at];
    }
    at
}
