ghost use Rattle.std.specs.Prelude.{◌↔◌, IsTrue};
ghost use Rattle.arch_rules.specs.Elements.{Holds, HoldsOther};
ghost use Rattle.arch_rules.specs.Forms.{Fits};

use crate::attr::attribute;
use crate::name::{is_plain_name, is_unbroken_name};
use crate::number::{is_coordinate, is_count, is_large, is_one, is_over_eight, is_priority};
use elem_text::Elem;

/// A form that the value of an attribute may have.
#[derive(Clone, Copy)]
pub enum Form {
    /// A name of a pb_type, a mode, a port or a tile.
    Plain,
    /// A name of an interconnect.
    Dark,
    /// The word `direct`.
    Direct,
    /// A number from 1 on.
    Count,
    /// A number over 65,536.
    Large,
    One,
    OverEight,
    /// A number below 2^32.
    Coordinate,
    /// A number of 64 bits with a sign.
    Priority,
}

impl Form {
    pub fn fits(self, text: &[u8]) -> bool
        ensures { IsTrue result ↔ Fits self text.now }
    {
        match self {
            Form::Plain => is_plain_name(text),
            Form::Dark => is_unbroken_name(text),
            Form::Direct => text == b"direct".as_slice(),
            Form::Count => is_count(text),
            Form::Large => is_large(text),
            Form::One => is_one(text),
            Form::OverEight => is_over_eight(text),
            Form::Coordinate => is_coordinate(text),
            Form::Priority => is_priority(text),
        }
    }
}

/// Whether the attribute is there and has this form.
pub fn holds(elem: &Elem, name: &[u8], form: Form) -> bool
    ensures { IsTrue result ↔ Holds elem.now name.now (Fits form) }
{
    match attribute(elem, name) {
        Some(text) => form.fits(text.as_bytes()),
        None => false,
    }
}

/// Whether the attribute is there and doesn't have this form.
pub fn holds_other(elem: &Elem, name: &[u8], form: Form) -> bool
    ensures { IsTrue result ↔ HoldsOther elem.now name.now (Fits form) }
{
    match attribute(elem, name) {
        Some(text) => !form.fits(text.as_bytes()),
        None => false,
    }
}
