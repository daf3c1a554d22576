ghost use Rattle.std.specs.Prelude.{◌≡◌, ◌++◌, codes, IfOk, OnOk};
ghost use Rattle.std.specs.List.{flat_map};
ghost use Rattle.arch_build.specs.Said.{inside, within, said_block, said_mode, said_inters, leaf_kind, modes_or_default};

use crate::inter::{inters_in, metas_in};
use crate::part::{copied, count_in};
use crate::places::NamePlaces;
use crate::port::ports_in;
use arch_types::{Kind, Mode, PbType};
use elem_attrs::{attribute, has_tag};
use elem_text::Elem;
use sqlite_items::Items;
use std::alloc::{AllocError, Global};
use vtr_base::Text;

/// Adds the block types in an element that is a list of them.
pub(crate) fn push_list(
    alloc: Global,
    models: &NamePlaces<'_>,
    blocks: &mut Items<PbType>,
    list: &Elem,
) -> Result<(), AllocError>
    ensures { OnOk result (blocks.new ≡ blocks.old ++ within (codes "complexblocklist")
        (said_block models.now) list.now) }
{
    if has_tag(list, b"complexblocklist") {
        for elem in list.kids.as_slice() {
            push_block(alloc, models, elem, blocks)?;
        }
    }
    Ok(())
}

/// The modes and the blocks among some elements.
#[derive(Drop)]
struct Children {
    modes: Items<Mode>,
    blocks: Items<PbType>,
}

/// Adds the block that the element is, where it is one.
#[cycle(blocks)]
fn push_block(
    alloc: Global,
    models: &NamePlaces<'_>,
    elem: &Elem,
    blocks: &mut Items<PbType>,
) -> Result<(), AllocError>
    ensures { OnOk result (blocks.new ≡ blocks.old ++ said_block models.now elem.now) }
{
    if has_tag(elem, b"pb_type") {
        let kind = match attribute(elem, b"blif_model") {
            Some(model) => leaf_kind(models, model.as_bytes()),
            None => {
                let children = children_of(alloc, models, elem.kids.as_slice())?;
                Kind::Modes(modes_or_default(alloc, children, elem)?)
            }
        };
        let block = PbType {
            name: copied(alloc, elem, b"name")?,
            count: count_in(elem, b"num_pb"),
            ports: ports_in(alloc, elem)?,
            kind,
            metas: metas_in(alloc, elem)?,
        };
        blocks.push(block)?;
    }
    Ok(())
}

/// Adds the mode that the element is, where it is one.
#[cycle(blocks)]
fn push_mode(
    alloc: Global,
    models: &NamePlaces<'_>,
    elem: &Elem,
    modes: &mut Items<Mode>,
) -> Result<(), AllocError>
    ensures { OnOk result (modes.new ≡ modes.old ++ said_mode models.now elem.now) }
{
    if has_tag(elem, b"mode") {
        let children = children_of(alloc, models, elem.kids.as_slice())?;
        let mode = Mode {
            name: copied(alloc, elem, b"name")?,
            kids: children.blocks,
            inters: inters_in(alloc, elem)?,
            metas: metas_in(alloc, elem)?,
        };
        modes.push(mode)?;
    }
    Ok(())
}

#[cycle(blocks)]
fn children_of(
    alloc: Global,
    models: &NamePlaces<'_>,
    elems: &[Elem],
) -> Result<Children, AllocError>
    ensures { IfOk result (λ c. (c.modes ≡ flat_map (said_mode models.now) elems.now)
        × (c.blocks ≡ flat_map (said_block models.now) elems.now)) }
{
    let mut modes = Items::new(alloc);
    let mut blocks = Items::new(alloc);
    for elem in elems {
        push_mode(alloc, models, elem, &mut modes)?;
        push_block(alloc, models, elem, &mut blocks)?;
    }
    Ok(Children { modes, blocks })
}

/// The modes of a block; where none is named, the one mode `default` with the block's children.
fn modes_or_default(
    alloc: Global,
    children: Children,
    elem: &Elem,
) -> Result<Items<Mode>, AllocError>
    ensures { IfOk result (λ modes. modes ≡ modes_or_default children.modes children.blocks
        (said_inters (inside elem.now))) }
{
    let mut modes = children.modes;
    if modes.is_empty() {
        let mode = Mode {
            name: Text::from_str(alloc, "default")?,
            kids: children.blocks,
            inters: inters_in(alloc, elem)?,
            metas: Items::new(alloc),
        };
        modes.push(mode)?;
    }
    Ok(modes)
}

/// The kind of a leaf. The model of a box is named behind `.subckt` and a space.
fn leaf_kind(models: &NamePlaces<'_>, text: &[u8]) -> Kind
    ensures { result ≡ leaf_kind models.now text.now }
{
    if text == b".input".as_slice() {
        Kind::InPad
    } else if text == b".output".as_slice() {
        Kind::OutPad
    } else if text == b".names".as_slice() {
        Kind::Lut
    } else if text == b".latch".as_slice() {
        Kind::Latch
    } else {
        Kind::Cell(models.place(text.get(8..).unwrap_or(b"")))
    }
}
