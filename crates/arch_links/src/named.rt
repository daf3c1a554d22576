ghost use Rattle.std.specs.Prelude.{◌≡◌, ◌++◌, codes, map, IfOk, OnOk, MatchOption};
ghost use Rattle.std.specs.List.{flat_map};
ghost use Rattle.std.specs.Option.{option_map};
ghost use Rattle.arch_build.specs.Said.{inside, within};
ghost use Rattle.arch_links.specs.First.{IsFirst, IsOfNone};
ghost use Rattle.arch_links.specs.Links.{IsUnknown, site_name, sub_tile_sites, site_names, model_in, own_model, models_at, block_models, models_used, nows};

use arch_build::NamePlaces;
use elem_attrs::{attribute, has_tag};
use elem_text::Elem;
use std::alloc::{AllocError, Global};
use vtr_base::Text;

/// The first of the names that isn't known.
pub(crate) fn first_unknown(
    alloc: Global,
    known: &NamePlaces<'_>,
    names: &[&str],
) -> Result<Option<Text>, AllocError>
    ensures { IfOk result (λ r. MatchOption r (IsOfNone (IsUnknown known.now) (nows names.now))
        (IsFirst (IsUnknown known.now) (nows names.now))) }
{
    for name in names {
        if !known.has(name.as_bytes()) {
            return Ok(Some(Text::from_str(alloc, name)?));
        }
    }
    Ok(None)
}

/// The names of block types that the sites of all tiles have, in file order.
pub(crate) fn site_names<'a>(alloc: Global, root: &'a Elem) -> Result<Vec<&'a str>, AllocError>
    ensures { IfOk result (λ names. nows names.items ≡ site_names root.now) }
{
    let mut names = Vec::new(alloc);
    for list in root.kids.as_slice() {
        push_tiles(&mut names, list)?;
    }
    Ok(names)
}

fn push_tiles<'a>(names: &mut Vec<&'a str>, list: &'a Elem) -> Result<(), AllocError>
    ensures { OnOk result (nows names.new.items ≡ nows names.old.items ++ within (codes "tiles")
        (within (codes "tile") sub_tile_sites) list.now) }
{
    if has_tag(list, b"tiles") {
        for tile in list.kids.as_slice() {
            push_tile(names, tile)?;
        }
    }
    Ok(())
}

fn push_tile<'a>(names: &mut Vec<&'a str>, tile: &'a Elem) -> Result<(), AllocError>
    ensures { OnOk result (nows names.new.items ≡ nows names.old.items ++ within (codes "tile")
        sub_tile_sites tile.now) }
{
    if has_tag(tile, b"tile") {
        for sub_tile in tile.kids.as_slice() {
            push_sub_tile(names, sub_tile)?;
        }
    }
    Ok(())
}

fn push_sub_tile<'a>(names: &mut Vec<&'a str>, elem: &'a Elem) -> Result<(), AllocError>
    ensures { OnOk result (nows names.new.items ≡ nows names.old.items ++ sub_tile_sites elem.now) }
{
    if has_tag(elem, b"sub_tile") {
        for sites in elem.kids.as_slice() {
            push_sites(names, sites)?;
        }
    }
    Ok(())
}

fn push_sites<'a>(names: &mut Vec<&'a str>, elem: &'a Elem) -> Result<(), AllocError>
    ensures { OnOk result (nows names.new.items ≡ nows names.old.items ++ within
        (codes "equivalent_sites") site_name elem.now) }
{
    if has_tag(elem, b"equivalent_sites") {
        for site in elem.kids.as_slice() {
            push_site(names, site)?;
        }
    }
    Ok(())
}

fn push_site<'a>(names: &mut Vec<&'a str>, elem: &'a Elem) -> Result<(), AllocError>
    ensures { OnOk result (nows names.new.items ≡ nows names.old.items ++ site_name elem.now) }
{
    if has_tag(elem, b"site") {
        match attribute(elem, b"pb_type") {
            Some(name) => names.push(name.as_str())?,
            None => names.push("")?,
        }
    }
    Ok(())
}

/// The names of the models that the boxes of all block types have, in file order.
pub(crate) fn models_used<'a>(alloc: Global, root: &'a Elem) -> Result<Vec<&'a str>, AllocError>
    ensures { IfOk result (λ names. nows names.items ≡ models_used root.now) }
{
    let mut names = Vec::new(alloc);
    for list in root.kids.as_slice() {
        push_list(&mut names, list)?;
    }
    Ok(names)
}

fn push_list<'a>(names: &mut Vec<&'a str>, list: &'a Elem) -> Result<(), AllocError>
    ensures { OnOk result (nows names.new.items ≡ nows names.old.items ++ within
        (codes "complexblocklist") block_models list.now) }
{
    if has_tag(list, b"complexblocklist") {
        for block in list.kids.as_slice() {
            push_block(names, block)?;
        }
    }
    Ok(())
}

/// Adds the models of a block type's boxes. No other element beside block types is read.
fn push_block<'a>(names: &mut Vec<&'a str>, elem: &'a Elem) -> Result<(), AllocError>
    ensures { OnOk result (nows names.new.items ≡ nows names.old.items ++ block_models elem.now) }
{
    if has_tag(elem, b"pb_type") {
        push_models(names, elem)?;
    }
    Ok(())
}

/// Adds the models of boxes at an element and below it.
fn push_models<'a>(names: &mut Vec<&'a str>, elem: &'a Elem) -> Result<(), AllocError>
    ensures { OnOk result (nows names.new.items ≡ nows names.old.items ++ models_at elem.now) }
{
    push_own(names, elem)?;
    if has_tag(elem, b"pb_type") || has_tag(elem, b"mode") {
        for kid in elem.kids.as_slice() {
            push_models(names, kid)?;
        }
    }
    Ok(())
}

fn push_own<'a>(names: &mut Vec<&'a str>, elem: &'a Elem) -> Result<(), AllocError>
    ensures { OnOk result (nows names.new.items ≡ nows names.old.items ++ own_model elem.now) }
{
    if !has_tag(elem, b"pb_type") {
        return Ok(());
    }
    let Some(text) = attribute(elem, b"blif_model") else {
        return Ok(());
    };
    if let Some(name) = model_in(text.as_str()) {
        names.push(name)?;
    }
    Ok(())
}

/// The name of a box's model, which stands behind `.subckt` and a space.
fn model_in(text: &str) -> Option<&str>
    ensures { option_map (λ name. name.now) result ≡ model_in text.now }
{
    text.strip_prefix(".subckt ")
}
