ghost use Rattle.std.specs.Prelude.{◌≡◌, ◌≢◌, ◌<◌, ◌/◌, ◌^◌, ◌↔◌, ℕ, length, MatchOption};
ghost use Rattle.link_lists.specs.Bits.{IsIn, IsNextIn, IsNextAround, HasNoneIn};

/// How many numbers a word holds.
pub(crate) const WORD: usize = 64;

/// Puts a number into a set, which has a bit of its words for each number.
pub(crate) fn insert(words: &mut [u64], k: usize)
    requires { k / 64 < length words.old }
    ensures here { IsIn words.new k }
    ensures others { (j : ℕ) → j ≢ k → (IsIn words.new j ↔ IsIn words.old j) }
{
    words[k / WORD] |= 1 << (k % WORD);
}

/// Takes a number out of a set.
pub(crate) fn remove(words: &mut [u64], k: usize)
    requires { k / 64 < length words.old }
    ensures here { IsIn words.new k → ⊥ }
    ensures others { (j : ℕ) → j ≢ k → (IsIn words.new j ↔ IsIn words.old j) }
{
    words[k / WORD] &= !(1 << (k % WORD));
}

/// The least number of a set from there on. It looks at each word once, up to that of the number.
pub(crate) fn next_from(words: &[u64], from: usize) -> Option<usize>
    requires few { length words.now < 2 ^ 32 }
    ensures { MatchOption result (HasNoneIn words.now from) (IsNextIn words.now from) }
{
    let mut at = from / WORD;
    let mut word = *words.get(at)? & (u64::MAX << (from % WORD));
    while word == 0 {
        at += 1;
        word = *words.get(at)?;
    }
    Some(WORD * at + word.trailing_zeros() as usize)
}

/// The least number of a set from there on, or else the least of all.
pub(crate) fn next_around(words: &[u64], from: usize) -> Option<usize>
    requires few { length words.now < 2 ^ 32 }
    ensures { MatchOption result (HasNoneIn words.now 0) (IsNextAround words.now from) }
{
    match next_from(words, from) {
        Some(next) => Some(next),
        None => next_from(words, 0),
    }
}
