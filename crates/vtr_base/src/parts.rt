ghost use Rattle.std.specs.Prelude.{MatchOption};
ghost use Rattle.vtr_base.specs.Spans.{Lacks, IsCut};

/// What stands before the first such byte, and what stands behind it.
pub fn cut(text: &[u8], byte: u8) -> Option<(&[u8], &[u8])>
    ensures { MatchOption result (Lacks text.now byte) (λ r. IsCut text.now byte r.0.now r.1.now) }
{
    for (i, b) in text.iter().enumerate() {
        if *b == byte {
            return Some((&text[..i], &text[i + 1..]));
        }
    }
    None
}
