ghost use Rattle.std.specs.Prelude.{◌≡◌, ◌++◌, ◌∷◌, [], ◌↔◌, IsTrue, IfOk, OnOk, IsUtf8, take};
ghost use Rattle.elem_text.specs.References.{decoded};
ghost use Rattle.elem_text.specs.Grammar.{HasName};
ghost use Rattle.elem_text.specs.Later.{attr_of, HasLaterNames};
ghost use Rattle.elem_text.specs.declared.elem.Attr.{Attr};

use crate::elem::Attr;
use crate::references::{decode, kept};
use sqlite_items::Items;
use std::alloc::{AllocError, Global};
use std::collections::BTreeSet;
use std::marker::Model;

/// So many names of one tag are compared one by one, which is the faster way as long as they are
/// few.
const FEW: usize = 8;

/// An attribute as it stands in the file, and what follows it.
#[derive(Drop)]
pub struct RawAttr<'a> {
    pub name: &'a [u8],
    pub raw: &'a [u8],
    pub after: &'a [u8],
}

/// The attributes of one start tag that were read so far. Contracts see their list. The names of
/// the first few are compared one by one, and those of all others through a set, so that reading a
/// tag is n log n in its attributes.
#[derive(Drop)]
pub struct TagAttrs<'a> {
    attrs: Items<Attr>,
    later: BTreeSet<&'a [u8]>,
}

impl<'a> Model for TagAttrs<'a> {
    ghost use Rattle.std.specs.Prelude.{List};
    ghost use Rattle.elem_text.specs.declared.elem.Attr.{Attr};
    ghost use Rattle.elem_text.specs.Later.{HasLaterNames};

    ghost Value = { List Attr };

    ghost view = { λ t. t.attrs };

    ghost invariant = { λ t. HasLaterNames t.attrs t.later };
}

impl<'a> TagAttrs<'a> {
    /// No attributes, which takes no memory.
    pub fn new(alloc: Global) -> TagAttrs<'a>
        ensures { result ≡ [] }
    {
        TagAttrs {
            attrs: Items::new(alloc),
            later: BTreeSet::new(alloc),
        }
    }

    /// Whether one of the attributes has this name.
    pub fn has(&self, name: &'a [u8]) -> bool
        ensures { IsTrue result ↔ HasName self.now name.now }
    {
        if stands(first_few(self.attrs.as_slice()), name) {
            return true;
        }
        self.later.contains(&name)
    }

    /// These attributes and one more, its references read.
    pub fn with(self, alloc: Global, attr: RawAttr<'a>) -> Result<TagAttrs<'a>, AllocError>
        requires name { IsUtf8 attr.name.now }
        requires raw { IsUtf8 attr.raw.now }
        ensures { IfOk result (λ all. all ≡ self.entry ++ attr_of attr.entry ∷ []) }
    {
        let TagAttrs {
            mut attrs,
            mut later,
        } = self;
        add_later(&mut later, attrs.as_slice(), attr.name)?;
        let name = kept(alloc, attr.name)?;
        let value = decode(alloc, attr.raw)?;
        attrs.push(Attr { name, value })?;
        Ok(TagAttrs { attrs, later })
    }

    pub fn into_attrs(self) -> Items<Attr>
        ensures { result ≡ self.entry }
    {
        let TagAttrs { attrs, later: _ } = self;
        attrs
    }
}

/// Adds the name of the attribute that follows `attrs` to the names of those behind the first few.
fn add_later<'a>(
    later: &mut BTreeSet<&'a [u8]>,
    attrs: &[Attr],
    name: &'a [u8],
) -> Result<(), AllocError>
    requires { HasLaterNames attrs.now later.old }
    ensures { OnOk result ((a : Attr) → a.name ≡ name.now → HasLaterNames (attrs.now ++ a ∷ [])
        later.new) }
{
    if attrs.len() < FEW {
        return Ok(());
    }
    later.insert(name)?;
    Ok(())
}

/// The attributes whose names are compared one by one.
fn first_few(attrs: &[Attr]) -> &[Attr]
    ensures { result.now ≡ take 8 attrs.now }
{
    if attrs.len() <= FEW {
        return attrs;
    }
    &attrs[..FEW]
}

/// Whether one of the attributes has this name, found by comparing them one by one.
fn stands(attrs: &[Attr], name: &[u8]) -> bool
    ensures { IsTrue result ↔ HasName attrs.now name.now }
{
    for attr in attrs {
        if attr.name.is(name) {
            return true;
        }
    }
    false
}
