ghost use Rattle.std.specs.Prelude.{MatchBool};
ghost use Rattle.rr_items.specs.Ground.{IsOnGround};

use elem_reading::number_attribute;
use elem_text::Elem;
use text_parts::Number;

/// Whether the element has no `layer`, or layer 0.
pub(crate) fn is_on_ground(elem: &Elem) -> bool
    ensures { MatchBool result (IsOnGround elem.now) (IsOnGround elem.now → ⊥) }
{
    match number_attribute(elem, b"layer", 0) {
        None => true,
        Some(Number::Value(_)) => true,
        Some(Number::NoDigits) => false,
        Some(Number::Over) => false,
    }
}
