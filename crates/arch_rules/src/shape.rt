ghost use Rattle.std.specs.Prelude.{◌≡◌, ◌↔◌, ℕ, List, codes, IsTrue, MatchOption};
ghost use Rattle.arch_rules.specs.Rules.{HasPorts, AreSingle, IsInPad, IsOutPad, IsLut, IsLatch, IsBoxOf, FitsModel, HasNoneBelow, IsLeaf, HasModes, IsOneMode, IsShaped, IsWideInput, HasWideInput};
ghost use Rattle.arch_rules.specs.Elements.{name_of, Holds};
ghost use Rattle.arch_rules.specs.Numbers.{IsOne};

use crate::attr::{attribute, how_many, is_named};
use crate::form::{Form, holds};
use crate::name::is_unbroken_name;
use elem_text::Elem;

/// Whether a pb_type has so many ports of each side.
fn has_ports(elem: &Elem, inputs: usize, outputs: usize, clocks: usize) -> bool
    ensures { IsTrue result ↔ HasPorts elem.now inputs outputs clocks }
{
    if how_many(elem, b"input") != inputs {
        return false;
    }
    if how_many(elem, b"output") != outputs {
        return false;
    }
    how_many(elem, b"clock") == clocks
}

/// Whether an element is a port of one pin, where it is one of this side.
fn is_single(port: &Elem, side: &[u8]) -> bool
    ensures { IsTrue result ↔ (name_of port.now ≡ side.now → Holds port.now (codes "num_pins")
        IsOne) }
{
    if !is_named(port, side) {
        return true;
    }
    holds(port, b"num_pins", Form::One)
}

/// Whether each port of this side has one pin.
fn are_single(elem: &Elem, side: &[u8]) -> bool
    ensures { IsTrue result ↔ AreSingle elem.now side.now }
{
    for port in elem.kids.as_slice() {
        if !is_single(port, side) {
            return false;
        }
    }
    true
}

fn is_in_pad(elem: &Elem) -> bool
    ensures { IsTrue result ↔ IsInPad elem.now }
{
    if !has_ports(elem, 0, 1, 0) {
        return false;
    }
    are_single(elem, b"output")
}

fn is_out_pad(elem: &Elem) -> bool
    ensures { IsTrue result ↔ IsOutPad elem.now }
{
    if !has_ports(elem, 1, 0, 0) {
        return false;
    }
    are_single(elem, b"input")
}

fn is_lut(elem: &Elem) -> bool
    ensures { IsTrue result ↔ IsLut elem.now }
{
    if !has_ports(elem, 1, 1, 0) {
        return false;
    }
    are_single(elem, b"output")
}

fn is_latch(elem: &Elem) -> bool
    ensures { IsTrue result ↔ IsLatch elem.now }
{
    if !has_ports(elem, 1, 1, 1) {
        return false;
    }
    if !are_single(elem, b"input") {
        return false;
    }
    if !are_single(elem, b"output") {
        return false;
    }
    are_single(elem, b"clock")
}

/// The name of the model of a box: the one word behind `.subckt` and a blank.
pub fn box_model(model: &[u8]) -> Option<&[u8]>
    ensures { MatchOption result ((word : List ℕ) → IsBoxOf model.now word → ⊥)
        (λ word. IsBoxOf model.now word.now) }
{
    let word = model.strip_prefix(b".subckt ")?;
    if is_unbroken_name(word) {
        Some(word)
    } else {
        None
    }
}

/// Whether the text is a `blif_model` and the leaf has the ports that go with it.
fn fits_model(elem: &Elem, model: &[u8]) -> bool
    ensures { IsTrue result ↔ FitsModel elem.now model.now }
{
    if model == b".input".as_slice() {
        return is_in_pad(elem);
    }
    if model == b".output".as_slice() {
        return is_out_pad(elem);
    }
    if model == b".names".as_slice() {
        return is_lut(elem);
    }
    if model == b".latch".as_slice() {
        return is_latch(elem);
    }
    box_model(model).is_some()
}

/// Whether a pb_type has no children and no interconnect.
fn has_none_below(elem: &Elem) -> bool
    ensures { IsTrue result ↔ HasNoneBelow elem.now }
{
    if how_many(elem, b"pb_type") != 0 {
        return false;
    }
    how_many(elem, b"interconnect") == 0
}

/// Whether a pb_type with this `blif_model` is a leaf.
fn is_leaf(elem: &Elem, model: &[u8]) -> bool
    ensures { IsTrue result ↔ IsLeaf elem.now model.now }
{
    if how_many(elem, b"mode") != 0 {
        return false;
    }
    if !has_none_below(elem) {
        return false;
    }
    fits_model(elem, model)
}

/// Whether a pb_type has modes, and no children or interconnects beside them.
fn has_modes(elem: &Elem) -> bool
    ensures { IsTrue result ↔ HasModes elem.now }
{
    if how_many(elem, b"mode") == 0 {
        return false;
    }
    has_none_below(elem)
}

/// Whether a pb_type has children and one interconnect, and no modes.
fn is_one_mode(elem: &Elem) -> bool
    ensures { IsTrue result ↔ IsOneMode elem.now }
{
    if how_many(elem, b"mode") != 0 {
        return false;
    }
    if how_many(elem, b"pb_type") == 0 {
        return false;
    }
    how_many(elem, b"interconnect") == 1
}

/// Whether a pb_type is a leaf, has modes, or is of one mode, and is nothing else beside it.
pub fn is_shaped(elem: &Elem) -> bool
    ensures { IsTrue result ↔ IsShaped elem.now }
{
    match attribute(elem, b"blif_model") {
        Some(model) => is_leaf(elem, model.as_bytes()),
        None => has_modes(elem) || is_one_mode(elem),
    }
}

/// Whether an element is an input port of more than 8 pins.
fn is_wide(port: &Elem) -> bool
    ensures { IsTrue result ↔ IsWideInput port.now }
{
    if !is_named(port, b"input") {
        return false;
    }
    holds(port, b"num_pins", Form::OverEight)
}

/// Whether an input port has more than 8 pins.
pub fn has_wide_input(elem: &Elem) -> bool
    ensures { IsTrue result ↔ HasWideInput elem.now }
{
    for port in elem.kids.as_slice() {
        if is_wide(port) {
            return true;
        }
    }
    false
}
