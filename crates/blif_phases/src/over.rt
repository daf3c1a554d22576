ghost use Rattle.std.specs.Prelude.{◌≡◌, ◌↔◌, ◌∷◌, [], IsTrue, codes, MatchOption};
ghost use Rattle.blif_elems.specs.Seen.{texts};
ghost use Rattle.blif_phases.specs.declared.phase.Phase.TheVariants.{Later, BlackBox};
ghost use Rattle.blif_phases.specs.Phases.{IsLone, PassesOver};
ghost use Rattle.blif_phases.specs.Seen.{Holds};
ghost use Rattle.blif_lines.specs.Lines.{LineSaid};

use crate::Phase;
use blif_lines::one_reading;

/// The phase behind a line of a later model that has no `.blackbox` line so far; none where the
/// line is its `.end`.
pub(crate) fn over_later(is_utf8: bool, words: &[&str]) -> Option<Phase>
    ensures { (l : LineSaid) → Holds l is_utf8 (texts words.now)
        → MatchOption result (IsLone l (codes ".end")) (PassesOver Later l) }
{
    if is_lone(is_utf8, words, ".blackbox") {
        return Some(Phase::BlackBox);
    }
    if is_lone(is_utf8, words, ".end") {
        return None;
    }
    Some(Phase::Later)
}

/// The phase behind a line of a black box.
pub(crate) fn over_box(is_utf8: bool, words: &[&str]) -> Phase
    ensures { (l : LineSaid) → Holds l is_utf8 (texts words.now) → PassesOver BlackBox l result }
{
    if is_lone(is_utf8, words, ".end") {
        return Phase::Behind;
    }
    Phase::BlackBox
}

/// Whether a line has one word, which is this one.
fn is_lone(is_utf8: bool, words: &[&str], word: &str) -> bool
    ensures { (l : LineSaid) → Holds l is_utf8 (texts words.now)
        → IsTrue result ↔ IsLone l word.now }
{
    one_reading();
    if !is_utf8 {
        return false;
    }
    is_only(words, word)
}

/// Whether there is one word, which is this one.
fn is_only(words: &[&str], word: &str) -> bool
    ensures { IsTrue result ↔ (texts words.now ≡ word.now ∷ []) }
{
    match words {
        [only] => is_same(only, word),
        _ => false,
    }
}

fn is_same(a: &str, b: &str) -> bool
    ensures { IsTrue result ↔ (a.now ≡ b.now) }
{
    a == b
}
