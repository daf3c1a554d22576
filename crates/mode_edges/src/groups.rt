ghost use Rattle.std.specs.Prelude.{◌≡◌, ◌<◌, ◌-◌, ◌↔◌, map, length, IsTrue, IfOk, MatchOption, Any};
ghost use Rattle.std.specs.List.{flat_map};
ghost use Rattle.mode_edges.specs.Faults.{NamesNoPin};
ghost use Rattle.mode_edges.specs.Readers.{pins_of};
ghost use Rattle.mode_edges.specs.Groups.{AreNamed, ReadsGroups, SomeUnnamed};

use crate::names::{Members, ModeNames, PinGroup, named};
use crate::pin::EdgeEnd;
use crate::split::{drop_braces, words};
use std::alloc::{AllocError, Global};

/// What each word of a list of pin words names, where each names pins on the right side.
pub(crate) fn groups(
    alloc: Global,
    names: &ModeNames<'_, '_>,
    role: EdgeEnd,
    text: &[u8],
) -> Result<Option<Vec<PinGroup>>, AllocError>
    ensures { IfOk result (λ r. MatchOption r (NamesNoPin names.now.block names.now.mode role
        text.now) (λ v. ReadsGroups names.now.block names.now.mode role text.now v.items)) }
{
    let plain = drop_braces(alloc, text)?;
    let words = words(alloc, plain.as_slice())?;
    let Some(found) = named_all(alloc, names, role, words.as_slice())? else {
        return Ok(None);
    };
    Ok(Some(found))
}

/// What each of some words names, where each names pins on the right side.
fn named_all(
    alloc: Global,
    names: &ModeNames<'_, '_>,
    role: EdgeEnd,
    words: &[&[u8]],
) -> Result<Option<Vec<PinGroup>>, AllocError>
    ensures { IfOk result (λ r. MatchOption r (SomeUnnamed names.now.block names.now.mode role
        (map (λ w. w.now) words.now)) (λ v. AreNamed names.now.block names.now.mode role
        (map (λ w. w.now) words.now) v.items)) }
{
    let mut found = Vec::new(alloc);
    for text in words {
        let Some(group) = named(names, role, text) else {
            return Ok(None);
        };
        found.push(group)?;
    }
    Ok(Some(found))
}

/// How many pins groups have, which may be very many.
pub(crate) fn pin_count(groups: &[PinGroup]) -> u128
    ensures { result ≡ length (flat_map pins_of groups.now) }
{
    let mut total: u128 = 0;
    for group in groups {
        total += u128::from(pins_in(*group));
    }
    total
}

/// Whether a group has more than one pin.
pub(crate) fn has_wide(groups: &[PinGroup]) -> bool
    ensures { IsTrue result ↔ Any (λ g. 1 < length (pins_of g)) groups.now }
{
    groups.iter().any(|group| pins_in(*group) > 1)
}

/// How many pins a group has.
fn pins_in(group: PinGroup) -> u64
    ensures { result ≡ length (pins_of group) }
{
    let bits = member_count(group.bits.bits);
    match group.of {
        None => u64::from(bits),
        Some(of) => u64::from(member_count(of.members)) * u64::from(bits),
    }
}

/// How many members a range has.
fn member_count(of: Members) -> u32
    ensures { result ≡ of.end - of.low }
{
    of.end.saturating_sub(of.low)
}
