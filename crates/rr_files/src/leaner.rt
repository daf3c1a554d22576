ghost use Rattle.std.specs.Prelude.{◌≡◌, ◌≢◌, [], ℕ, List};
ghost use Rattle.elem_text.specs.declared.elem.Elem.{out-Elem};
ghost use Rattle.elem_reading.specs.Kids.{kids_named as named};

use elem_attrs::has_tag;
use elem_text::Elem;
use sqlite_items::Items;
use std::alloc::Global;
use vtr_base::{Place, Text};

/// The element with nothing in the place of each child of this name: these are let go, and all
/// other children stay as they were. It takes no memory.
pub(crate) fn without(alloc: Global, elem: Elem, name: &[u8]) -> Elem
    ensures { (other : List ℕ) → other ≢ name.now → other ≢ [] →
        named result other ≡ named elem other }
{
    let mut elem = elem;
    for at in 0..elem.kids.len() {
        if has_tag(&elem.kids.as_slice()[at], name) {
            elem.kids.set(at, nothing(alloc));
        }
    }
    elem
}

/// An element without a name and without children. It takes no memory.
fn nothing(alloc: Global) -> Elem
    ensures { (out-Elem result).name ≡ [] }
{
    Elem {
        name: Text::new(alloc),
        attrs: Items::new(alloc),
        text: Text::new(alloc),
        kids: Items::new(alloc),
        place: Place { line: 0, byte: 0 },
    }
}
