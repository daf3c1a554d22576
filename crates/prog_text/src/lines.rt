ghost use Rattle.std.specs.Prelude.{◌≡◌, [], MatchOption};
ghost use Rattle.prog_text.specs.Lines.{IsFirstLine, DropsReturn};

use vtr_base::cut;

/// The first line of the bytes and what follows it, or `None` where nothing is left. A line ends at
/// a line feed, and a carriage return right before that is dropped.
pub fn next_line(bytes: &[u8]) -> Option<(&[u8], &[u8])>
    ensures { MatchOption result (bytes.now ≡ []) (λ r. IsFirstLine bytes.now r.0.now r.1.now) }
{
    if bytes.is_empty() {
        return None;
    }
    match cut(bytes, b'\n') {
        Some((whole, rest)) => Some((without_return(whole), rest)),
        None => Some((bytes, &[])),
    }
}

/// The text without one carriage return at its end.
fn without_return(whole: &[u8]) -> &[u8]
    ensures { DropsReturn whole.now result.now }
{
    match whole {
        [line @ .., b'\r'] => line,
        _ => whole,
    }
}
