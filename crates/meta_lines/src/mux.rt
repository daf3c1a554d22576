ghost use Rattle.std.specs.Prelude.{◌≡◌, ◌⊎◌, ◌↔◌, ◌∷◌, [], ℕ, List, map, codes, IsTrue, IfOk, IfErr, MatchOption};
ghost use Rattle.vtr_base.specs.Lists.{Has};
ghost use Rattle.mode_edges.specs.declared.pin.LocalPin.{LocalPin};
ghost use Rattle.meta_parts.specs.Seen.{seen};
ghost use Rattle.meta_lines.specs.declared.error.LineError.TheVariants.{OutOfMemory};
ghost use Rattle.meta_lines.specs.declared.types.Feature.{Feature as Said};
ghost use Rattle.meta_lines.specs.Features.{form_of};
ghost use Rattle.meta_lines.specs.Muxes.{IsNull, HasParts, NamesInput, pins_in, GivesPin, RefusesMux, ListsMux, RefusesMuxText};
ghost use Rattle.meta_lines.specs.Inputs.{AreInputs, HaveSame};

use crate::error::LineError;
use crate::forms::{are_named, part_forms, push_features};
use crate::types::{Feature, PinFeatures};
use arch_types::Inter;
use indexmap::IndexSet;
use meta_parts::{BitForm, Line, comma_parts, one_form, only_word, said_lines, sides};
use mode_edges::{EdgeEnd, LocalPin, ModeNames, one_reading};
use sqlite_items::Items;
use std::alloc::{AllocError, Global};

/// The features of an interconnect's input pins (`fasm_mux`): lines `PIN = FEATURE, FEATURE` or
/// `PIN = NULL`, where `names` are those of the interconnect's mode. A pin without a line has none.
pub fn read_mux(
    alloc: Global,
    names: &ModeNames<'_, '_>,
    inter: &Inter,
    text: &[u8],
) -> Result<Items<PinFeatures>, LineError>
    ensures ok { IfOk result (λ given.
        ListsMux names.now.block names.now.mode inter.now text.now given) }
    ensures refused { IfErr result (λ e.
        (e ≡ OutOfMemory) ⊎ RefusesMuxText names.now.block names.now.mode inter.now text.now e) }
{
    let inputs = inputs_of(alloc, names, inter)?;
    let said = said_lines(alloc, text)?;
    let lines = said.as_slice();
    let mut pins = IndexSet::new(alloc);
    let mut given = Vec::new(alloc);
    for line in lines {
        let here = read_line(alloc, names, inter, &inputs, line, &pins)?;
        pins.insert(here.pin)?;
        given.push(here)?;
    }
    Ok(Items::from_vec(given))
}

/// The input pins of an interconnect.
fn inputs_of(
    alloc: Global,
    names: &ModeNames<'_, '_>,
    inter: &Inter,
) -> Result<IndexSet<LocalPin>, AllocError>
    ensures { IfOk result (λ inputs.
        AreInputs names.now.block names.now.mode inter.now inputs.keys) }
{
    one_reading();
    let Some(pins) = names.read_pins(alloc, EdgeEnd::Source, inter.input.as_bytes())? else {
        return Ok(IndexSet::new(alloc));
    };
    let set = set_of(alloc, pins.as_slice())?;
    Ok(set)
}

/// The pins as a set.
fn set_of(alloc: Global, pins: &[LocalPin]) -> Result<IndexSet<LocalPin>, AllocError>
    ensures { IfOk result (λ set. HaveSame set.keys pins.now) }
{
    let mut set = IndexSet::new(alloc);
    for pin in pins {
        set.insert(*pin)?;
    }
    Ok(set)
}

/// The features that a line gives to a pin, where the lines before it gave some to these pins.
fn read_line(
    alloc: Global,
    names: &ModeNames<'_, '_>,
    inter: &Inter,
    inputs: &IndexSet<LocalPin>,
    line: &Line<'_>,
    pins: &IndexSet<LocalPin>,
) -> Result<PinFeatures, LineError>
    requires { AreInputs names.now.block names.now.mode inter.now inputs.now.keys }
    ensures ok { IfOk result (λ given. (before : List PinFeatures)
        → HaveSame pins.now.keys (pins_in before)
        → GivesPin names.now.block names.now.mode inter.now before (seen line.now) given) }
    ensures refused { IfErr result (λ e. (e ≡ OutOfMemory)
        ⊎ ((before : List PinFeatures) → HaveSame pins.now.keys (pins_in before)
        → RefusesMux names.now.block names.now.mode inter.now before (seen line.now) e)) }
{
    one_form();
    let Some((left, right)) = sides(line.text) else {
        return Err(LineError::BadLine { line: line.number });
    };
    let Some(forms) = right_forms(alloc, right)? else {
        return Err(LineError::BadLine { line: line.number });
    };
    let Some(pin) = input_pin(alloc, names, inter, inputs, left)? else {
        return Err(LineError::UnknownInput { line: line.number });
    };
    if pins.contains(&pin) {
        return Err(LineError::BadLine { line: line.number });
    }
    if !are_named(forms.as_slice()) {
        return Err(LineError::FeatureName { line: line.number });
    }
    let mut features = Vec::new(alloc);
    push_features(alloc, &mut features, forms.as_slice())?;
    Ok(PinFeatures {
        pin,
        features: Items::from_vec(features),
    })
}

/// The one input of the interconnect that a text names.
fn input_pin(
    alloc: Global,
    names: &ModeNames<'_, '_>,
    inter: &Inter,
    inputs: &IndexSet<LocalPin>,
    text: &[u8],
) -> Result<Option<LocalPin>, AllocError>
    requires { AreInputs names.now.block names.now.mode inter.now inputs.now.keys }
    ensures { IfOk result (λ r. MatchOption r
        ((pin : LocalPin) → NamesInput names.now.block names.now.mode inter.now text.now pin → ⊥)
        (λ pin. NamesInput names.now.block names.now.mode inter.now text.now pin)) }
{
    one_reading();
    let Some(pin) = names.read_pin(alloc, EdgeEnd::Source, text)? else {
        return Ok(None);
    };
    if inputs.contains(&pin) {
        Ok(Some(pin))
    } else {
        Ok(None)
    }
}

/// The features of a right side, by their forms.
fn right_forms<'a>(alloc: Global, right: &'a [u8]) -> Result<Option<Vec<BitForm<'a>>>, AllocError>
    ensures { IfOk result (λ r. MatchOption r ((fs : List Said) → HasParts right.now fs → ⊥)
        (λ forms. HasParts right.now (map form_of forms.items))) }
{
    if is_null(alloc, right)? {
        return Ok(Some(Vec::new(alloc)));
    }
    let parts = comma_parts(alloc, right)?;
    part_forms(alloc, parts.as_slice())
}

/// Whether a right side is `NULL` alone.
fn is_null(alloc: Global, right: &[u8]) -> Result<bool, AllocError>
    ensures { IfOk result (λ null. IsTrue null ↔ IsNull right.now) }
{
    match only_word(alloc, right)? {
        Some(word) => Ok(word == b"NULL".as_slice()),
        None => Ok(false),
    }
}
