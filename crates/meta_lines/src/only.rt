ghost use Rattle.std.specs.Prelude.{◌≡◌, ◌⊎◌, IfOk, IfErr, MatchOption};
ghost use Rattle.meta_parts.specs.Seen.{seen};
ghost use Rattle.meta_lines.specs.declared.error.LineError.TheVariants.{OutOfMemory};
ghost use Rattle.meta_lines.specs.declared.types.LutType.{LutType as Said};
ghost use Rattle.meta_lines.specs.Only.{IsType, IsNoType, SaysType, RefusesType, IsField, IsNoField, SaysField, RefusesField};

use crate::error::LineError;
use crate::fields::{field_form, field_of};
use crate::types::{LineField, LutType};
use fasm_text::is_feature_name;
use meta_parts::{Line, only_word, said_lines};
use std::alloc::{AllocError, Global};

/// What a text says of the LUTs under its owner (`fasm_type`): `LUT` or `SPLIT_LUT`.
pub fn read_type(alloc: Global, text: &[u8]) -> Result<LutType, LineError>
    ensures ok { IfOk result (λ kind. SaysType text.now kind) }
    ensures refused { IfErr result (λ e. (e ≡ OutOfMemory) ⊎ RefusesType text.now e) }
{
    let lines = said_lines(alloc, text)?;
    match lines.as_slice() {
        [] => Err(LineError::BadLine { line: 1 }),
        [line] => read_type_line(alloc, line),
        [line, second, ..] => {
            let _first = read_type_line(alloc, line)?;
            Err(LineError::BadLine {
                line: second.number,
            })
        }
    }
}

/// The type that a line says.
fn read_type_line(alloc: Global, line: &Line<'_>) -> Result<LutType, LineError>
    ensures ok { IfOk result (λ kind. IsType (seen line.now) kind) }
    ensures refused { IfErr result (λ e. (e ≡ OutOfMemory) ⊎ IsNoType (seen line.now) e) }
{
    match type_of(alloc, line.text)? {
        Some(kind) => Ok(kind),
        None => Err(LineError::BadLine { line: line.number }),
    }
}

/// The type whose name is the one word of a text.
fn type_of(alloc: Global, text: &[u8]) -> Result<Option<LutType>, AllocError>
    ensures { IfOk result (λ r. MatchOption r
        ((kind : Said) → IsType (record { number = 0; text = text.now }) kind → ⊥)
        (λ kind. IsType (record { number = 0; text = text.now }) kind)) }
{
    let Some(word) = only_word(alloc, text)? else {
        return Ok(None);
    };
    if word == b"LUT".as_slice() {
        return Ok(Some(LutType::Lut));
    }
    if word == b"SPLIT_LUT".as_slice() {
        return Ok(Some(LutType::SplitLut));
    }
    Ok(None)
}

/// The field of all LUTs under an owner (`fasm_lut` with the type `LUT`).
pub fn read_lut(alloc: Global, text: &[u8]) -> Result<LineField, LineError>
    ensures ok { IfOk result (λ field. SaysField text.now field) }
    ensures refused { IfErr result (λ e. (e ≡ OutOfMemory) ⊎ RefusesField text.now e) }
{
    let lines = said_lines(alloc, text)?;
    match lines.as_slice() {
        [] => Err(LineError::BadLine { line: 1 }),
        [line] => read_field_line(alloc, line),
        [line, second, ..] => {
            let _first = read_field_line(alloc, line)?;
            Err(LineError::BadLine {
                line: second.number,
            })
        }
    }
}

/// The field that a line says.
fn read_field_line(alloc: Global, line: &Line<'_>) -> Result<LineField, LineError>
    ensures ok { IfOk result (λ field. IsField (seen line.now) field) }
    ensures refused { IfErr result (λ e. (e ≡ OutOfMemory) ⊎ IsNoField (seen line.now) e) }
{
    let Some(form) = field_form(alloc, line.text)? else {
        return Err(LineError::BadLine { line: line.number });
    };
    if !is_feature_name(form.name) {
        return Err(LineError::FeatureName { line: line.number });
    }
    Ok(LineField {
        line: line.number,
        field: field_of(alloc, &form)?,
    })
}
