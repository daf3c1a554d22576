ghost use Rattle.std.specs.Prelude.{◌≡◌, ◌↔◌, IsTrue, map};
ghost use Rattle.run_words.specs.Words.{IsNextPlain, IsInRange, IsNewOutput};
ghost use Rattle.run_words.specs.Readings.{IsRepeated};

use crate::WordKind;
use vtr_base::read_number;

/// Whether the command has one more plain word, and it can be this one.
pub(crate) fn fits_next(kinds: &[WordKind], plain: &[&str], word: &str) -> bool
    ensures { IsTrue result ↔ IsNextPlain kinds.now (map (λ w. w.now) plain.now) word.now }
{
    match kinds.get(plain.len()) {
        None => false,
        Some(WordKind::Input | WordKind::Text) => true,
        Some(WordKind::Number { least, most }) => is_in_range(word.as_bytes(), *least, *most),
        Some(WordKind::Output) => is_new_output(kinds, plain, word),
    }
}

/// Whether the digits are a number in this range.
fn is_in_range(word: &[u8], least: u64, most: u64) -> bool
    ensures { IsTrue result ↔ IsInRange word.now least most }
{
    match read_number(word) {
        Some(value) => least <= value && value <= most,
        None => false,
    }
}

/// Whether no earlier word for an output is this one.
fn is_new_output(kinds: &[WordKind], plain: &[&str], word: &str) -> bool
    ensures { IsTrue result ↔ IsNewOutput kinds.now (map (λ w. w.now) plain.now) word.now }
{
    for (place, earlier) in plain.iter().enumerate() {
        if repeats(kinds, place, earlier, word) {
            return false;
        }
    }
    true
}

/// Whether the plain word at that place is an output's, and this one is the same.
fn repeats(kinds: &[WordKind], place: usize, earlier: &str, word: &str) -> bool
    ensures { IsTrue result ↔ IsRepeated kinds.now place earlier.now word.now }
{
    match kinds.get(place) {
        Some(WordKind::Output) => is_same(earlier, word),
        Some(WordKind::Input | WordKind::Text | WordKind::Number { .. }) => false,
        None => false,
    }
}

/// Whether two words are the same.
pub(crate) fn is_same(one: &str, two: &str) -> bool
    ensures { IsTrue result ↔ (one.now ≡ two.now) }
{
    one.as_bytes() == two.as_bytes()
}
