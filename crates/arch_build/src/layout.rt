ghost use Rattle.std.specs.Prelude.{◌≡◌, ◌++◌, codes, IfOk, OnOk};
ghost use Rattle.std.specs.List.{flat_map};
ghost use Rattle.std.specs.Option.{option_and_then};
ghost use Rattle.elem_text.specs.declared.elem.Elem.{out-Elem};
ghost use Rattle.elem_attrs.specs.Attributes.{value_of};
ghost use Rattle.elem_attrs.specs.Numbers.{signed_number};
ghost use Rattle.arch_build.specs.Said.{inside, within, said_layout, said_single, text_named};

use crate::inter::metas_in;
use crate::part::{copied, small_in};
use arch_types::{Layout, Meta, Single};
use elem_attrs::{attribute, has_tag, signed_number};
use elem_text::Elem;
use sqlite_items::Items;
use std::alloc::{AllocError, Global};
use vtr_base::Text;

/// Adds the fixed layouts in an element that is a list of layouts.
pub(crate) fn push_layouts(
    alloc: Global,
    layouts: &mut Items<Layout>,
    list: &Elem,
) -> Result<(), AllocError>
    ensures { OnOk result (layouts.new ≡ layouts.old ++ within (codes "layout") said_layout
        list.now) }
{
    if has_tag(list, b"layout") {
        for elem in list.kids.as_slice() {
            push_layout(alloc, layouts, elem)?;
        }
    }
    Ok(())
}

fn push_layout(alloc: Global, layouts: &mut Items<Layout>, elem: &Elem) -> Result<(), AllocError>
    ensures { OnOk result (layouts.new ≡ layouts.old ++ said_layout elem.now) }
{
    if has_tag(elem, b"fixed_layout") {
        let layout = Layout {
            width: small_in(elem, b"width").unwrap_or(0),
            height: small_in(elem, b"height").unwrap_or(0),
            singles: singles_in(alloc, elem)?,
        };
        layouts.push(layout)?;
    }
    Ok(())
}

fn singles_in(alloc: Global, owner: &Elem) -> Result<Items<Single>, AllocError>
    ensures { IfOk result (λ singles. singles ≡ flat_map said_single (inside owner.now)) }
{
    let mut singles = Items::new(alloc);
    for elem in owner.kids.as_slice() {
        push_single(alloc, &mut singles, elem)?;
    }
    Ok(singles)
}

/// Adds a `single` whose place and priority are plain numbers.
fn push_single(alloc: Global, singles: &mut Items<Single>, elem: &Elem) -> Result<(), AllocError>
    ensures { OnOk result (singles.new ≡ singles.old ++ said_single elem.now) }
{
    if !has_tag(elem, b"single") {
        return Ok(());
    }
    let Some(x) = small_in(elem, b"x") else {
        return Ok(());
    };
    let Some(y) = small_in(elem, b"y") else {
        return Ok(());
    };
    let Some(priority) = priority_of(elem) else {
        return Ok(());
    };
    let metas = metas_in(alloc, elem)?;
    let single = Single {
        tile: copied(alloc, elem, b"type")?,
        x,
        y,
        priority,
        prefix: prefix_of(alloc, metas.as_slice())?,
    };
    singles.push(single)?;
    Ok(())
}

fn priority_of(elem: &Elem) -> Option<i64>
    ensures { result ≡ option_and_then signed_number
        (value_of (out-Elem elem.now).attrs (codes "priority")) }
{
    signed_number(attribute(elem, b"priority")?.as_bytes())
}

/// The text of the first `fasm_prefix`.
fn prefix_of(alloc: Global, metas: &[Meta]) -> Result<Text, AllocError>
    ensures { IfOk result (λ t. t ≡ text_named (codes "fasm_prefix") metas.now) }
{
    for meta in metas {
        if meta.name.is(b"fasm_prefix") {
            return meta.text.copy(alloc);
        }
    }
    Ok(Text::new(alloc))
}
