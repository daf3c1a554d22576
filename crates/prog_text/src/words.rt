ghost use Rattle.std.specs.Prelude.{◌≡◌, ◌∷◌, [], ◌↔◌, ℕ, List, IsTrue, MatchOption};
ghost use Rattle.prog_text.specs.Sayings.{IsWord, IsFirstWord, AreWords};

use vtr_base::cut;

/// The first word of a text and what follows the blank behind it.
pub fn first_word(text: &[u8]) -> Option<(&[u8], &[u8])>
    ensures { MatchOption result ((word rest : List ℕ) → IsFirstWord text.now word rest → ⊥)
        (λ r. IsFirstWord text.now r.0.now r.1.now) }
{
    let (word, rest) = cut(text, b' ')?;
    if word.is_empty() {
        return None;
    }
    Some((word, rest))
}

/// Whether the bytes are this word.
pub(crate) fn is_same(bytes: &[u8], word: &[u8]) -> bool
    ensures { IsTrue result ↔ (bytes.now ≡ word.now) }
{
    bytes == word
}

/// Whether a text is one word.
pub fn is_one_word(text: &[u8]) -> bool
    ensures { IsTrue result ↔ IsWord text.now }
{
    if text.is_empty() {
        return false;
    }
    match cut(text, b' ') {
        None => true,
        Some(_) => false,
    }
}

/// A text of two words.
pub fn two_words(text: &[u8]) -> Option<(&[u8], &[u8])>
    ensures { MatchOption result ((first second : List ℕ) → AreWords text.now (first ∷ second ∷ [])
        → ⊥) (λ r. AreWords text.now (r.0.now ∷ r.1.now ∷ [])) }
{
    let (first, second) = first_word(text)?;
    if !is_one_word(second) {
        return None;
    }
    Some((first, second))
}

/// A text of three words.
pub fn three_words(text: &[u8]) -> Option<(&[u8], &[u8], &[u8])>
    ensures { MatchOption result ((first second third : List ℕ) → AreWords text.now
        (first ∷ second ∷ third ∷ []) → ⊥) (λ r. AreWords text.now
        (r.0.now ∷ r.1.now ∷ r.2.now ∷ [])) }
{
    let (first, rest) = first_word(text)?;
    let (second, third) = two_words(rest)?;
    Some((first, second, third))
}
