ghost use Rattle.std.specs.Prelude.{◌≡◌, ℕ, List, IsUtf8};
ghost use Rattle.fasm_text.specs.Names.{IsFeatureName};
ghost use Rattle.meta_parts.specs.Divisions.{HasSides};
ghost use Rattle.meta_parts.specs.Forms.{HasBit, HasRange, HasChild};

use fasm_text::one_range;

/// Tells a caller's proof that a line has one pair of sides at most, and that a word has each form
/// in one way at most. It does nothing.
pub fn one_form()
    ensures sides { (line l r m s : List ℕ) → HasSides line l r → HasSides line m s
        → (l ≡ m) × (r ≡ s) }
    ensures bit { (word n m : List ℕ) (a b : ℕ) → HasBit word n a → HasBit word m b
        → (n ≡ m) × (a ≡ b) }
    ensures range { (word n m : List ℕ) (lo hi bottom top : ℕ) → HasRange word n lo hi
        → HasRange word m bottom top → (n ≡ m) × (lo ≡ bottom) × (hi ≡ top) }
    ensures child { (word n m : List ℕ) (a b : ℕ) → HasChild word n a → HasChild word m b
        → (n ≡ m) × (a ≡ b) }
{
    one_range();
}

/// Tells a caller's proof that a feature's name is UTF-8, and so is a feature's whole word. It does
/// nothing.
pub fn names_are_texts()
    ensures name { (name : List ℕ) → IsFeatureName name → IsUtf8 name }
    ensures word { (word name : List ℕ) (bit : ℕ) → HasBit word name bit → IsFeatureName name
        → IsUtf8 word }
{}
