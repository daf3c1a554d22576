ghost use Rattle.std.specs.Prelude.{◌≡◌, ℕ, List, true, IsUtf8};
ghost use Rattle.vtr_base.specs.Spans.{AreWords};
ghost use Rattle.blif_lines.specs.Lines.{AreLinesFrom, IsNextLine, LineSaid};

/// Tells a caller's proof that physical lines make one list of lines and begin with one line, that
/// a text has one list of words, and that the text of a line is UTF-8 where its physical lines are.
/// It does nothing.
pub fn one_reading()
    ensures lines { (number : ℕ) (physical : List (List ℕ)) (ls ms : List LineSaid)
        → AreLinesFrom number physical ls → AreLinesFrom number physical ms → ls ≡ ms }
    ensures next { (number : ℕ) (physical : List (List ℕ)) (l m : LineSaid) (next other : ℕ)
        (rest behind : List (List ℕ)) → IsNextLine number physical l next rest
        → IsNextLine number physical m other behind
        → (l ≡ m) × (next ≡ other) × (rest ≡ behind) }
    ensures words { (text : List ℕ) (vs ws : List (List ℕ))
        → AreWords text vs → AreWords text ws → vs ≡ ws }
    ensures utf8 { (number next : ℕ) (physical rest : List (List ℕ)) (l : LineSaid)
        → IsNextLine number physical l next rest → l.is_utf8 ≡ true → IsUtf8 l.text }
{}
