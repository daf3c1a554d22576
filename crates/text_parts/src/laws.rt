ghost use Rattle.std.specs.Prelude.{◌≡◌, ℕ, List};
ghost use Rattle.text_parts.specs.declared.digits.Number.{Number as Said};
ghost use Rattle.text_parts.specs.Numerals.{Reads};
ghost use Rattle.text_parts.specs.Words.{WordAt, AreWordsFrom};

/// Tells a caller's proof that the words of a text are one list, and that a text says one number.
/// It does nothing.
pub fn one_reading()
    ensures words { (place : ℕ) (text : List ℕ) (vs ws : List WordAt)
        → AreWordsFrom place text vs → AreWordsFrom place text ws → vs ≡ ws }
    ensures number { (most : ℕ) (text : List ℕ) (m n : Said)
        → Reads most text m → Reads most text n → m ≡ n }
{}
