ghost use Rattle.std.specs.Prelude.{◌≡◌, ◌≢◌, ◌↔◌, ℕ, List, map, codes, true, false, Some, None, IsTrue, MatchOption};
ghost use Rattle.arch_rules.specs.Elements.{how_many, HoldsOther};
ghost use Rattle.arch_rules.specs.Forms.{Fits};
ghost use Rattle.arch_rules.specs.Roles.{required, counted};
ghost use Rattle.arch_rules.specs.Rules.{IsOddSingle, IsUnread, IsFirstLacking, IsMissing, MayName, HasOddCount, HasOddSize, HasBadNumber, IsUnsupported, HasNoMetadata, Passes, IsLutModel};
ghost use Rattle.arch_rules.specs.declared.role.Role.{Role};
ghost use Rattle.arch_rules.specs.declared.error.LimitKind.{LimitKind};

use crate::attr::{attribute, how_many};
use crate::error::LimitKind;
use crate::form::{Form, holds, holds_other};
use crate::role::Role;
use crate::shape::{has_wide_input, is_shaped};
use elem_text::Elem;

/// Whether a `single` has a place or a priority that is no plain number.
fn is_odd_single(elem: &Elem) -> bool
    ensures { IsTrue result ↔ IsOddSingle elem.now }
{
    if holds_other(elem, b"x", Form::Coordinate) {
        return true;
    }
    if holds_other(elem, b"y", Form::Coordinate) {
        return true;
    }
    holds_other(elem, b"priority", Form::Priority)
}

fn has_no_metadata(elem: &Elem) -> bool
    ensures { IsTrue result ↔ HasNoMetadata elem.now }
{
    how_many(elem, b"metadata") == 0
}

/// Whether it is a `single` that isn't read.
pub fn is_unread(role: Role, elem: &Elem) -> bool
    ensures { IsTrue result ↔ IsUnread role elem.now }
{
    match role {
        Role::Single => is_odd_single(elem) && has_no_metadata(elem),
        _ => false,
    }
}

/// The first of these attributes that the element lacks.
fn first_lacking(elem: &Elem, names: &'static [&'static str]) -> Option<&'static str>
    ensures { MatchOption result ((name : List ℕ) → IsFirstLacking elem.now
        (map (λ n. n.now) names.now) name → ⊥) (λ name. IsFirstLacking elem.now
        (map (λ n. n.now) names.now) name.now) }
{
    for name in names {
        if attribute(elem, name.as_bytes()).is_none() {
            return Some(*name);
        }
    }
    None
}

/// The first required attribute that the element lacks.
pub fn missing(role: Role, elem: &Elem) -> Option<&'static str>
    ensures { MatchOption result ((name : List ℕ) → IsMissing role elem.now name → ⊥)
        (λ name. IsMissing role elem.now name.now) }
{
    if is_unread(role, elem) {
        return None;
    }
    first_lacking(elem, role.required())
}

/// Whether the element's name is none of its role.
fn has_bad_name(role: Role, elem: &Elem) -> bool
    ensures { IsTrue result ↔ HoldsOther elem.now (codes "name") (MayName role) }
{
    match role {
        Role::ModelPort
        | Role::Tile
        | Role::SubTile
        | Role::TilePort
        | Role::Block
        | Role::PbType
        | Role::Port
        | Role::Mode => holds_other(elem, b"name", Form::Plain),
        Role::Inter => holds_other(elem, b"name", Form::Dark),
        _ => false,
    }
}

/// The attribute of this role that holds a count.
pub fn counted(role: Role) -> Option<&'static str>
    ensures { MatchOption result (counted role ≡ None) (λ name. counted role ≡ Some name.now) }
{
    match role {
        Role::SubTile => Some("capacity"),
        Role::TilePort | Role::Port => Some("num_pins"),
        Role::Block | Role::PbType => Some("num_pb"),
        _ => None,
    }
}

fn has_odd_count(role: Role, elem: &Elem) -> bool
    ensures { IsTrue result ↔ HasOddCount role elem.now }
{
    match counted(role) {
        Some(name) => holds_other(elem, name.as_bytes(), Form::Count),
        None => false,
    }
}

fn has_odd_size(role: Role, elem: &Elem) -> bool
    ensures { IsTrue result ↔ HasOddSize role elem.now }
{
    match role {
        Role::FixedLayout => {
            if holds_other(elem, b"width", Form::Coordinate) {
                return true;
            }
            holds_other(elem, b"height", Form::Coordinate)
        }
        _ => false,
    }
}

/// Whether a number or a name of the element is not of its form.
pub fn has_bad_number(role: Role, elem: &Elem) -> bool
    ensures { IsTrue result ↔ HasBadNumber role elem.now }
{
    if has_bad_name(role, elem) {
        return true;
    }
    if has_odd_count(role, elem) {
        return true;
    }
    has_odd_size(role, elem)
}

/// Whether the element is of a form that is left out.
pub fn is_unsupported(role: Role, elem: &Elem) -> bool
    ensures { IsTrue result ↔ IsUnsupported role elem.now }
{
    match role {
        Role::Foreign => true,
        Role::Tile => how_many(elem, b"sub_tile") != 1,
        Role::Site => holds_other(elem, b"pin_mapping", Form::Direct),
        Role::Region => !has_no_metadata(elem),
        Role::Single => is_odd_single(elem) && !has_no_metadata(elem),
        Role::Block => holds_other(elem, b"num_pb", Form::One) || !is_shaped(elem),
        Role::PbType => !is_shaped(elem),
        _ => false,
    }
}

/// Whether the element has the model of a LUT.
fn is_lut_model(elem: &Elem) -> bool
    ensures { IsTrue result ↔ IsLutModel elem.now }
{
    match attribute(elem, b"blif_model") {
        Some(model) => model.is(b".names"),
        None => false,
    }
}

/// The limit that a pb_type passes.
fn pb_type_limit(elem: &Elem) -> Option<LimitKind>
    ensures { MatchOption result ((which : LimitKind) → Passes Role.PbType elem.now which → ⊥)
        (λ which. Passes Role.PbType elem.now which) }
{
    if holds(elem, b"num_pb", Form::Large) {
        return Some(LimitKind::NumPb);
    }
    if !is_lut_model(elem) {
        return None;
    }
    if has_wide_input(elem) {
        Some(LimitKind::Inputs)
    } else {
        None
    }
}

/// The limit that the element passes.
pub fn passed(role: Role, elem: &Elem) -> Option<LimitKind>
    ensures { MatchOption result ((which : LimitKind) → Passes role elem.now which → ⊥)
        (λ which. Passes role elem.now which) }
{
    match role {
        Role::SubTile => {
            if holds(elem, b"capacity", Form::Large) {
                return Some(LimitKind::Capacity);
            }
            None
        }
        Role::TilePort | Role::Port => {
            if holds(elem, b"num_pins", Form::Large) {
                return Some(LimitKind::NumPins);
            }
            None
        }
        Role::Block | Role::PbType => pb_type_limit(elem),
        _ => None,
    }
}
