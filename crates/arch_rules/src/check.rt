ghost use Rattle.std.specs.Prelude.{◌≡◌, IsTrue, IfErr, OnOk, MatchResult};
ghost use Rattle.arch_rules.specs.Walks.{IsNumbered, IsFine, RefusesForm, Refuses};

use crate::attr::own_name;
use crate::error::RuleError;
use crate::role::Role;
use crate::rules::{has_bad_number, is_unsupported, missing, passed};
use elem_text::Elem;
use std::alloc::Global;
use vtr_base::Text;

/// The rules on one element, where `is_taken` says whether its name is taken.
pub fn check_elem(alloc: Global, role: Role, elem: &Elem, is_taken: bool) -> Result<(), RuleError>
    ensures { MatchResult result (λ _. IsFine role (IsTrue is_taken) elem.now)
        (λ e. Refuses role (IsTrue is_taken) elem.now e) }
{
    check_form(alloc, role, elem)?;
    if is_taken {
        return Err(RuleError::SameName {
            name: Text::from_str(alloc, own_name(elem))?,
            place: elem.place,
        });
    }
    if is_unsupported(role, elem) {
        return Err(RuleError::Unsupported {
            what: elem.name.copy(alloc)?,
            place: elem.place,
        });
    }
    match passed(role, elem) {
        Some(which) => Err(RuleError::Limit {
            which,
            place: elem.place,
        }),
        None => Ok(()),
    }
}

/// The rules on an element's own name and attributes.
fn check_form(alloc: Global, role: Role, elem: &Elem) -> Result<(), RuleError>
    ensures { MatchResult result (λ _. IsNumbered role elem.now)
        (λ e. RefusesForm role elem.now e) }
{
    if role == Role::Unknown {
        return Err(RuleError::UnknownElement {
            name: elem.name.copy(alloc)?,
            place: elem.place,
        });
    }
    if let Some(name) = missing(role, elem) {
        return Err(RuleError::MissingAttr {
            name: Text::from_str(alloc, name)?,
            place: elem.place,
        });
    }
    if has_bad_number(role, elem) {
        return Err(RuleError::BadNumber { place: elem.place });
    }
    Ok(())
}
