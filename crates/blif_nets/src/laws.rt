ghost use Rattle.blif_nets.specs.Laws.{HasOneNumbering, HasOneGrowth, HasOneKnown, NeverBoth};
ghost use Rattle.std.specs.Prelude.{ℕ, List};

/// Tells a caller's proof that words have one list of numbers, and that a list is added to another
/// in one way, or has one first element that stands there already, and never both. It does nothing.
pub fn one_numbering()
    ensures numbers { HasOneNumbering }
    ensures nets { HasOneGrowth ℕ }
    ensures names { HasOneGrowth (List ℕ) }
    ensures known_net { HasOneKnown ℕ }
    ensures known_name { HasOneKnown (List ℕ) }
    ensures never_net { NeverBoth ℕ }
    ensures never_name { NeverBoth (List ℕ) }
{}
