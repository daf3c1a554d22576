use sqlite_items::Items;
use vtr_base::{Place, Text};

/// An attribute of an element, as `name="value"`. References in the value are read.
#[derive(Debug, Drop)]
pub struct Attr {
    pub name: Text,
    pub value: Text,
}

/// An element. `text` joins the runs of text that stand directly in it, their references read, and
/// `kids` holds its child elements in their order. `place` is the place of its `<`; an element that
/// was not read from a file may have any.
#[derive(Debug, Drop)]
pub struct Elem {
    pub name: Text,
    pub attrs: Items<Attr>,
    pub text: Text,
    pub kids: Items<Elem>,
    pub place: Place,
}
