ghost use Rattle.std.specs.Prelude.{◌≡◌, ◌++◌, map, IfOk, OnOk};
ghost use Rattle.std.specs.Option.{option_copied};
ghost use Rattle.elem_reading.specs.Kids.{first_kid as the_first, kids_named as named, kids_under as under};

use elem_attrs::has_tag;
use elem_text::Elem;
use std::alloc::{AllocError, Global};

/// The first child of this name.
pub fn first_kid<'a>(elem: &'a Elem, name: &[u8]) -> Option<&'a Elem>
    ensures { option_copied result ≡ the_first elem.now name.now }
{
    elem.kids.as_slice().iter().find(|kid| has_tag(*kid, name))
}

/// The children of this name, in their order.
pub fn kids_named<'a>(
    alloc: Global,
    elem: &'a Elem,
    name: &[u8],
) -> Result<Vec<&'a Elem>, AllocError>
    ensures { IfOk result (λ found.
        map (λ kid. kid.now) found.items ≡ named elem.now name.now) }
{
    let mut found = Vec::new(alloc);
    add_named(&mut found, elem, name)?;
    Ok(found)
}

/// The children of this name of all children of the parents' name, parent by parent in their order.
pub fn kids_under<'a>(
    alloc: Global,
    elem: &'a Elem,
    parents: &[u8],
    name: &[u8],
) -> Result<Vec<&'a Elem>, AllocError>
    ensures { IfOk result (λ found.
        map (λ kid. kid.now) found.items ≡ under elem.now parents.now name.now) }
{
    let mut found = Vec::new(alloc);
    for parent in elem.kids.as_slice() {
        if has_tag(parent, parents) {
            add_named(&mut found, parent, name)?;
        }
    }
    Ok(found)
}

/// Adds the children of this name.
fn add_named<'a>(found: &mut Vec<&'a Elem>, elem: &'a Elem, name: &[u8]) -> Result<(), AllocError>
    ensures { OnOk result (map (λ kid. kid.now) found.new.items
        ≡ map (λ kid. kid.now) found.old.items ++ named elem.now name.now) }
{
    for kid in elem.kids.as_slice() {
        if has_tag(kid, name) {
            found.push(kid)?;
        }
    }
    Ok(())
}
