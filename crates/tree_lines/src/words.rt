ghost use Rattle.std.specs.Prelude.{◌≡◌, ◌↔◌, IsTrue, MatchOption};
ghost use Rattle.vtr_base.specs.Lists.{Has};
ghost use Rattle.tree_lines.specs.Words.{AreCut, texts};

/// Whether the bytes are this word.
pub(crate) fn is_same(bytes: &[u8], word: &[u8]) -> bool
    ensures { IsTrue result ↔ (bytes.now ≡ word.now) }
{
    bytes == word
}

/// The words before the first that is this one, and those behind it.
pub(crate) fn cut_at<'a, 'b>(
    words: &'b [&'a [u8]],
    at: &[u8],
) -> Option<(&'b [&'a [u8]], &'b [&'a [u8]])>
    ensures { MatchOption result (Has (texts words.now) at.now → ⊥)
        (λ r. AreCut (texts words.now) at.now (texts r.0.now) (texts r.1.now)) }
{
    for (i, word) in words.iter().enumerate() {
        if is_same(word, at) {
            return Some((&words[..i], &words[i + 1..]));
        }
    }
    None
}
