ghost use Rattle.std.specs.Prelude.{◌≡◌, ℕ, List};
ghost use Rattle.blif_boxes.specs.Pins.{IsPinWord, PinSaid};

/// Tells a caller's proof that a word says one thing of one pin. It does nothing.
pub fn one_reading()
    ensures { (word : List ℕ) (p q : PinSaid) → IsPinWord word p → IsPinWord word q → p ≡ q }
{}
