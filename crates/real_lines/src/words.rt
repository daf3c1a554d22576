ghost use Rattle.std.specs.Prelude.{◌≡◌, ◌↔◌, ℕ, List, IsTrue, MatchOption};
ghost use Rattle.real_lines.specs.Lines.{SaysTwo};

use prog_text::{one_division, three_words};
use std::str;

/// The two words behind the keyword, where a line is these three.
pub(crate) fn two_behind<'a>(line: &'a [u8], keyword: &[u8]) -> Option<(&'a [u8], &'a [u8])>
    ensures { MatchOption result ((first second : List ℕ) → SaysTwo line.now keyword.now first
        second → ⊥) (λ r. SaysTwo line.now keyword.now r.0.now r.1.now) }
{
    one_division();
    let Some((word, first, second)) = three_words(line) else {
        return None;
    };
    if !is_same(word, keyword) {
        return None;
    }
    let Ok(_) = str::from_utf8(line) else {
        return None;
    };
    Some((first, second))
}

/// Whether the bytes are this word.
fn is_same(bytes: &[u8], word: &[u8]) -> bool
    ensures { IsTrue result ↔ (bytes.now ≡ word.now) }
{
    bytes == word
}
