ghost use Rattle.std.specs.Prelude.{◌∷◌, ◌++◌, ℕ, List, flat_map};
ghost use Rattle.std.specs.List.{All, AllPass};
ghost use Rattle.vtr_base.specs.Spans.{AreWords, is_white};
ghost use Rattle.net_types.specs.Words.{IsWord};
ghost use Rattle.word_texts.specs.Spaced.{spaced};

/// Tells a caller's proof that words with a blank between them, and white space behind the last
/// one, are the words of their text. It does nothing.
pub fn text_words()
    ensures { (first : List ℕ) (words : List (List ℕ)) (white : List ℕ) → IsWord first
        → All IsWord words → AllPass is_white white
        → AreWords (first ++ (flat_map spaced words ++ white)) (first ∷ words) }
{}
