ghost use Rattle.std.specs.Prelude.{◌≡◌, ℕ, List, Option};
ghost use Rattle.elem_text.specs.declared.elem.Elem.{Elem};
ghost use Rattle.rr_nodes.specs.declared.error.NodeError.{NodeError};
ghost use Rattle.rr_nodes.specs.declared.pins.FoundPin.{FoundPin};
ghost use Rattle.rr_nodes.specs.declared.placed.PlacedNode.{PlacedNode};
ghost use Rattle.rr_nodes.specs.Saying.{SaysNodes};
ghost use Rattle.rr_nodes.specs.Refusing.{IsRefused};

use rr_items::one_item;

/// Tells a caller's proof that elements say nodes in one way, are refused in one way, and never
/// both. It does nothing.
pub fn one_reading()
    ensures nodes { (pin_of : ℕ → ℕ → ℕ → Option FoundPin) (es : List Elem)
        (ns ms : List PlacedNode) → SaysNodes pin_of es ns → SaysNodes pin_of es ms → ns ≡ ms }
    ensures refusal { (pin_of : ℕ → ℕ → ℕ → Option FoundPin) (es : List Elem)
        (d e : NodeError) → IsRefused pin_of es d → IsRefused pin_of es e → d ≡ e }
    ensures never_both { (pin_of : ℕ → ℕ → ℕ → Option FoundPin) (es : List Elem)
        (ns : List PlacedNode) (e : NodeError) →
        SaysNodes pin_of es ns → IsRefused pin_of es e → ⊥ }
{
    one_item();
}
