ghost use Rattle.std.specs.Prelude.{◌≡◌, ◌++◌, codes, IfOk, OnOk};
ghost use Rattle.std.specs.List.{flat_map};
ghost use Rattle.arch_build.specs.Said.{inside, within, said_meta, said_metas, said_pattern, inter_kind, said_inter, said_inters};

use crate::part::copied;
use arch_types::{Inter, InterKind, Meta, Pattern};
use elem_attrs::has_tag;
use elem_text::Elem;
use sqlite_items::Items;
use std::alloc::{AllocError, Global};

/// The metas of an owner, in file order.
pub(crate) fn metas_in(alloc: Global, owner: &Elem) -> Result<Items<Meta>, AllocError>
    ensures { IfOk result (λ metas. metas ≡ said_metas (inside owner.now)) }
{
    let mut metas = Items::new(alloc);
    for elem in owner.kids.as_slice() {
        push_metas(alloc, &mut metas, elem)?;
    }
    Ok(metas)
}

fn push_metas(alloc: Global, metas: &mut Items<Meta>, elem: &Elem) -> Result<(), AllocError>
    ensures { OnOk result (metas.new ≡ metas.old ++ within (codes "metadata") said_meta elem.now) }
{
    if has_tag(elem, b"metadata") {
        for meta in elem.kids.as_slice() {
            push_meta(alloc, metas, meta)?;
        }
    }
    Ok(())
}

fn push_meta(alloc: Global, metas: &mut Items<Meta>, elem: &Elem) -> Result<(), AllocError>
    ensures { OnOk result (metas.new ≡ metas.old ++ said_meta elem.now) }
{
    if has_tag(elem, b"meta") {
        let name = copied(alloc, elem, b"name")?;
        let text = elem.text.copy(alloc)?;
        metas.push(Meta { name, text })?;
    }
    Ok(())
}

/// The interconnects of a mode, in file order.
pub(crate) fn inters_in(alloc: Global, owner: &Elem) -> Result<Items<Inter>, AllocError>
    ensures { IfOk result (λ inters. inters ≡ said_inters (inside owner.now)) }
{
    let mut inters = Items::new(alloc);
    for elem in owner.kids.as_slice() {
        push_inters(alloc, &mut inters, elem)?;
    }
    Ok(inters)
}

fn push_inters(alloc: Global, inters: &mut Items<Inter>, elem: &Elem) -> Result<(), AllocError>
    ensures { OnOk result (inters.new ≡ inters.old ++ within (codes "interconnect") said_inter
        elem.now) }
{
    if has_tag(elem, b"interconnect") {
        for inter in elem.kids.as_slice() {
            push_inter(alloc, inters, inter)?;
        }
    }
    Ok(())
}

fn push_inter(alloc: Global, inters: &mut Items<Inter>, elem: &Elem) -> Result<(), AllocError>
    ensures { OnOk result (inters.new ≡ inters.old ++ said_inter elem.now) }
{
    let Some(kind) = inter_kind(elem) else {
        return Ok(());
    };
    let inter = Inter {
        name: copied(alloc, elem, b"name")?,
        kind,
        input: copied(alloc, elem, b"input")?,
        output: copied(alloc, elem, b"output")?,
        patterns: patterns_in(alloc, elem)?,
        metas: metas_in(alloc, elem)?,
    };
    inters.push(inter)?;
    Ok(())
}

/// How the element joins pins by its name.
fn inter_kind(elem: &Elem) -> Option<InterKind>
    ensures { result ≡ inter_kind elem.now }
{
    if has_tag(elem, b"direct") {
        Some(InterKind::Direct)
    } else if has_tag(elem, b"complete") {
        Some(InterKind::Complete)
    } else if has_tag(elem, b"mux") {
        Some(InterKind::Mux)
    } else {
        None
    }
}

fn patterns_in(alloc: Global, owner: &Elem) -> Result<Items<Pattern>, AllocError>
    ensures { IfOk result (λ patterns. patterns ≡ flat_map said_pattern (inside owner.now)) }
{
    let mut patterns = Items::new(alloc);
    for elem in owner.kids.as_slice() {
        push_pattern(alloc, &mut patterns, elem)?;
    }
    Ok(patterns)
}

fn push_pattern(alloc: Global, patterns: &mut Items<Pattern>, elem: &Elem) -> Result<(), AllocError>
    ensures { OnOk result (patterns.new ≡ patterns.old ++ said_pattern elem.now) }
{
    if has_tag(elem, b"pack_pattern") {
        let pattern = Pattern {
            name: copied(alloc, elem, b"name")?,
            in_port: copied(alloc, elem, b"in_port")?,
            out_port: copied(alloc, elem, b"out_port")?,
        };
        patterns.push(pattern)?;
    }
    Ok(())
}
