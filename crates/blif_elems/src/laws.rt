ghost use Rattle.std.specs.Prelude.{◌≡◌, ℕ, List};
ghost use Rattle.blif_elems.specs.Statements.{Said, WordsSay};
ghost use Rattle.blif_elems.specs.Faults.{FaultSaid, IsFault};
ghost use Rattle.blif_elems.specs.Written.{HaveKeywords};

/// Tells a caller's proof that words say one thing, that words which say something have no fault,
/// and that words have one fault. It does nothing.
pub fn one_reading()
    ensures says { (words : List (List ℕ)) (s t : Said)
        → WordsSay words s → WordsSay words t → s ≡ t }
    ensures never { (words : List (List ℕ)) (s : Said) (f : FaultSaid)
        → WordsSay words s → IsFault words f → ⊥ }
    ensures fault { (words : List (List ℕ)) (f g : FaultSaid)
        → IsFault words f → IsFault words g → f ≡ g }
{}

/// Tells a caller's proof what the lines say that begin with a keyword, by the words behind it. It
/// does nothing.
pub fn keyword_lines()
    ensures { HaveKeywords }
{}
