ghost use Rattle.std.specs.Prelude.{◌≡◌, MatchOption};
ghost use Rattle.elem_attrs.specs.Attributes.{HasAttribute, LacksAttribute, has_tag, attr_of};

use elem_text::Elem;
use vtr_base::Text;

/// Whether the element has this name.
pub fn has_tag(elem: &Elem, name: &[u8]) -> bool
    ensures { result ≡ has_tag elem.now name.now }
{
    elem.name.is(name)
}

/// The value of the first attribute of this name. The names of one element's attributes differ in
/// a text that was read, so there is no other.
pub fn attribute<'a>(elem: &'a Elem, name: &[u8]) -> Option<&'a Text>
    ensures { MatchOption result (LacksAttribute elem.now name.now)
        (λ value. HasAttribute elem.now name.now value.now) }
{
    for attr in elem.attrs.as_slice() {
        if attr.name.is(name) {
            return Some(&attr.value);
        }
    }
    None
}

/// The value of the attribute of this name, or no bytes where there is none.
pub fn value_or_empty<'a>(elem: &'a Elem, name: &[u8]) -> &'a [u8]
    ensures { result.now ≡ attr_of elem.now name.now }
{
    match attribute(elem, name) {
        Some(value) => value.as_bytes(),
        None => b"",
    }
}
