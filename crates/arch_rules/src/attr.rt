ghost use Rattle.std.specs.Prelude.{◌≡◌, Some, codes, MatchOption};
ghost use Rattle.arch_rules.specs.Elements.{attribute, how_many, is_named, text_at, Lacks};

use elem_text::Elem;
use vtr_base::Text;

/// The value of the first attribute of this name.
pub fn attribute<'a>(elem: &'a Elem, name: &[u8]) -> Option<&'a Text>
    ensures { MatchOption result (Lacks elem.now name.now)
        (λ value. attribute elem.now name.now ≡ Some value.now) }
{
    for attr in elem.attrs.as_slice() {
        if attr.name.is(name) {
            return Some(&attr.value);
        }
    }
    None
}

/// The element's `name`; it is empty where there is none.
pub fn own_name(elem: &Elem) -> &str
    ensures { result.now ≡ text_at elem.now (codes "name") }
{
    match attribute(elem, b"name") {
        Some(name) => name.as_str(),
        None => "",
    }
}

/// Whether the element has this name.
pub fn is_named(elem: &Elem, name: &[u8]) -> bool
    ensures { result ≡ is_named name.now elem.now }
{
    elem.name.as_bytes() == name
}

/// How many children of this name the element has.
pub fn how_many(elem: &Elem, name: &[u8]) -> usize
    ensures { result ≡ how_many name.now elem.now }
{
    elem.kids
        .as_slice()
        .iter()
        .filter(|kid| is_named(kid, name))
        .count()
}
