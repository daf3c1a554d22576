ghost use Rattle.std.specs.Prelude.{◌≡◌, ◌∷◌, [], ℕ, List, MatchOption};
ghost use Rattle.meta_parts.specs.Divisions.{inside_from, IsColonCut, HasSides};

use vtr_base::cut;

/// The two sides of a line: what stands before its first `=` and behind it, or, in a line without
/// one, before and behind its first `:` that isn't inside brackets.
pub fn sides(line: &[u8]) -> Option<(&[u8], &[u8])>
    ensures { MatchOption result ((left right : List ℕ) → HasSides line.now left right → ⊥)
        (λ s. HasSides line.now s.0.now s.1.now) }
{
    match cut(line, b'=') {
        Some(sides) => Some(sides),
        None => colon_sides(line),
    }
}

/// What stands before the first `:` that isn't inside brackets, and behind it.
fn colon_sides(line: &[u8]) -> Option<(&[u8], &[u8])>
    ensures { MatchOption result ((left right : List ℕ) → IsColonCut line.now left right → ⊥)
        (λ s. IsColonCut line.now s.0.now s.1.now) }
{
    let mut inside = false;
    for (at, b) in line.iter().enumerate() {
        if *b == b':' && !inside {
            return Some((&line[..at], &line[at + 1..]));
        }
        inside = is_inside_behind(inside, *b);
    }
    None
}

/// Whether the place behind a byte is inside brackets.
fn is_inside_behind(inside: bool, b: u8) -> bool
    ensures { result ≡ inside_from inside (b ∷ []) }
{
    match b {
        b'[' => true,
        b']' => false,
        _ => inside,
    }
}
