ghost use Rattle.std.specs.Prelude.{◌<◌, MatchOption};
ghost use Rattle.vtr_base.specs.Spans.{Lacks, IsCut};

use vtr_base::cut;

/// What stands before the first such ASCII character of a text, and what stands behind it.
pub(crate) fn cut_text(text: &str, byte: u8) -> Option<(&str, &str)>
    requires { byte < 128 }
    ensures { MatchOption result (Lacks text.now byte) (λ r. IsCut text.now byte r.0.now r.1.now) }
{
    let (before, _) = cut(text.as_bytes(), byte)?;
    let (front, behind) = text.split_at(before.len());
    let (_, rest) = behind.split_at(1);
    Some((front, rest))
}
