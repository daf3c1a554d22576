ghost use Rattle.std.specs.Prelude.{◌≡◌, ℕ, Bool, List};
ghost use Rattle.elem_text.specs.declared.elem.Elem.{Elem};
ghost use Rattle.rr_items.specs.declared.grid.GridPlace.{GridPlace};
ghost use Rattle.rr_grid.specs.declared.error.GridError.{GridError};
ghost use Rattle.rr_grid.specs.Saying.{SaysGrid};
ghost use Rattle.rr_grid.specs.Refusing.{IsRefused};

use rr_items::one_item;

/// Tells a caller's proof that items say a grid in one way, are refused in one way, and never both.
/// It does nothing.
pub fn one_reading()
    ensures places { (known : ℕ → Bool) (es : List Elem) (ps qs : List GridPlace) →
        SaysGrid known es ps → SaysGrid known es qs → ps ≡ qs }
    ensures refusal { (known : ℕ → Bool) (es : List Elem) (d e : GridError) →
        IsRefused known es d → IsRefused known es e → d ≡ e }
    ensures never_both { (known : ℕ → Bool) (es : List Elem) (ps : List GridPlace)
        (e : GridError) → SaysGrid known es ps → IsRefused known es e → ⊥ }
{
    one_item();
}
