ghost use Rattle.std.specs.Prelude.{◌≡◌, ◌⊎◌, List, ℕ, IsUtf8, IfOk, IfErr, MatchOption};
ghost use Rattle.fasm_text.specs.Names.{IsFeatureName};
ghost use Rattle.meta_parts.specs.Seen.{seen};
ghost use Rattle.meta_lines.specs.declared.error.LineError.TheVariants.{OutOfMemory};
ghost use Rattle.meta_lines.specs.declared.types.Field.{Field as Said};
ghost use Rattle.meta_lines.specs.declared.types.ChildField.{ChildField as SaidOfChild};
ghost use Rattle.meta_lines.specs.declared.types.ParamField.{ParamField as SaidOfParam};
ghost use Rattle.meta_lines.specs.Fields.{IsFieldForm, NamesChild, NamesParam, HasChildForm, HasParamForm, RefusesNamed, ListsChildren, RefusesChildren, ListsParams, RefusesParams, field_said};

use crate::error::LineError;
use crate::types::{ChildField, Field, ParamField};
use fasm_text::is_feature_name;
use meta_parts::{
    ChildForm, Line, RangeForm, child_form, names_are_texts, one_form, only_word, range_form,
    said_lines, sides, text_of,
};
use sqlite_items::Items;
use std::alloc::{AllocError, Global};
use text_parts::as_text;
use vtr_base::Text;

/// The fields of an owner's children (`fasm_lut` with the type `SPLIT_LUT`): lines
/// `FIELD = CHILD[i]`. A child may have several lines, of which the first counts.
pub fn read_children(alloc: Global, text: &[u8]) -> Result<Items<ChildField>, LineError>
    ensures ok { IfOk result (λ children. ListsChildren text.now children) }
    ensures refused { IfErr result (λ e. (e ≡ OutOfMemory) ⊎ RefusesChildren text.now e) }
{
    let said = said_lines(alloc, text)?;
    let lines = said.as_slice();
    let mut children = Vec::new(alloc);
    for line in lines {
        children.push(read_child_line(alloc, line)?)?;
    }
    Ok(Items::from_vec(children))
}

/// The field that a line gives to a child.
fn read_child_line(alloc: Global, line: &Line<'_>) -> Result<ChildField, LineError>
    ensures form { IfOk result (λ child. HasChildForm (seen line.now) child) }
    ensures named { IfOk result (λ child. IsFeatureName child.field.name) }
    ensures refused { IfErr result (λ e. (e ≡ OutOfMemory)
        ⊎ ((before : List SaidOfChild)
        → RefusesNamed HasChildForm (λ c. c.field.name) before (seen line.now) e)) }
{
    one_form();
    let Some((left, right)) = sides(line.text) else {
        return Err(LineError::BadLine { line: line.number });
    };
    let Some(form) = field_form(alloc, left)? else {
        return Err(LineError::BadLine { line: line.number });
    };
    let Some(child) = child_of(alloc, right)? else {
        return Err(LineError::BadLine { line: line.number });
    };
    if !is_feature_name(form.name) {
        return Err(LineError::FeatureName { line: line.number });
    }
    Ok(ChildField {
        line: line.number,
        field: field_of(alloc, &form)?,
        child: child.name,
        instance: child.instance,
    })
}

/// The fields of parameters (`fasm_params`): lines `FIELD = PARAM`.
pub fn read_params(alloc: Global, text: &[u8]) -> Result<Items<ParamField>, LineError>
    ensures ok { IfOk result (λ params. ListsParams text.now params) }
    ensures refused { IfErr result (λ e. (e ≡ OutOfMemory) ⊎ RefusesParams text.now e) }
{
    let said = said_lines(alloc, text)?;
    let lines = said.as_slice();
    let mut params = Vec::new(alloc);
    for line in lines {
        params.push(read_param_line(alloc, line)?)?;
    }
    Ok(Items::from_vec(params))
}

/// The field that a line gives to a parameter.
fn read_param_line(alloc: Global, line: &Line<'_>) -> Result<ParamField, LineError>
    ensures form { IfOk result (λ param. HasParamForm (seen line.now) param) }
    ensures named { IfOk result (λ param. IsFeatureName param.field.name) }
    ensures refused { IfErr result (λ e. (e ≡ OutOfMemory)
        ⊎ ((before : List SaidOfParam)
        → RefusesNamed HasParamForm (λ p. p.field.name) before (seen line.now) e)) }
{
    one_form();
    let Some((left, right)) = sides(line.text) else {
        return Err(LineError::BadLine { line: line.number });
    };
    let Some(form) = field_form(alloc, left)? else {
        return Err(LineError::BadLine { line: line.number });
    };
    let Some(param) = param_of(alloc, right)? else {
        return Err(LineError::BadLine { line: line.number });
    };
    if !is_feature_name(form.name) {
        return Err(LineError::FeatureName { line: line.number });
    }
    Ok(ParamField {
        field: field_of(alloc, &form)?,
        param,
    })
}

/// The one word of a text in the form of a field.
pub(crate) fn field_form<'a>(
    alloc: Global,
    text: &'a [u8],
) -> Result<Option<RangeForm<'a>>, AllocError>
    ensures { IfOk result (λ r. MatchOption r ((f : Said) → IsFieldForm text.now f → ⊥)
        (λ form. IsFieldForm text.now (field_said form))) }
{
    let Some(word) = only_word(alloc, text)? else {
        return Ok(None);
    };
    Ok(range_form(word))
}

/// The field of a form.
pub(crate) fn field_of(alloc: Global, form: &RangeForm<'_>) -> Result<Field, AllocError>
    requires { IsFeatureName form.now.name.now }
    ensures { IfOk result (λ field. field ≡ field_said form.now) }
{
    names_are_texts();
    Ok(Field {
        name: text_of(alloc, form.name)?,
        lo: form.bits.lo,
        hi: form.bits.hi,
    })
}

/// An instance of a child, by the child's name.
#[derive(Drop)]
struct Child {
    name: Text,
    instance: u32,
}

/// The instance of a child that is the one word of a text.
fn child_of(alloc: Global, text: &[u8]) -> Result<Option<Child>, AllocError>
    ensures { IfOk result (λ r. MatchOption r
        ((name : List ℕ) (instance : ℕ) → NamesChild text.now name instance → ⊥)
        (λ child. NamesChild text.now child.name child.instance)) }
{
    one_form();
    let Some(word) = only_word(alloc, text)? else {
        return Ok(None);
    };
    let Some(form) = child_form(word) else {
        return Ok(None);
    };
    let Some(name) = as_text(form.name) else {
        return Ok(None);
    };
    Ok(Some(Child {
        name: Text::from_str(alloc, name)?,
        instance: form.instance,
    }))
}

/// The parameter that is the one word of a text.
fn param_of(alloc: Global, text: &[u8]) -> Result<Option<Text>, AllocError>
    ensures { IfOk result (λ r. MatchOption r ((param : List ℕ) → NamesParam text.now param → ⊥)
        (λ param. NamesParam text.now param)) }
{
    let Some(word) = only_word(alloc, text)? else {
        return Ok(None);
    };
    let Some(param) = as_text(word) else {
        return Ok(None);
    };
    Ok(Some(Text::from_str(alloc, param)?))
}
