ghost use Rattle.std.specs.Prelude.{◌≡◌, ◌++◌, ◌∷◌, [], List, IfOk, OnOk};
ghost use Rattle.meta_lines.specs.declared.types.Feature.{Feature as Said};
ghost use Rattle.kept_features.specs.Keys.{AreKeys};
ghost use Rattle.kept_features.specs.Places.{KeepsAt, AddsAt};

use crate::firsts::BitKey;
use indexmap::IndexSet;
use meta_lines::Feature;
use sqlite_items::Items;
use std::alloc::{AllocError, Global};

/// The places of the features that `kept_features` keeps, in the list of both owners' features.
pub fn kept_places(
    alloc: Global,
    first: &[Feature],
    second: &[Feature],
) -> Result<Items<u32>, AllocError>
    ensures { IfOk result (λ places. KeepsAt (first.now ++ second.now) (first.now ++ second.now)
        places) }
{
    let mut keys = IndexSet::new(alloc);
    let mut places = Vec::new(alloc);
    for (number, feature) in first.iter().enumerate() {
        keep_place(&mut keys, &mut places, feature, number)?;
    }
    for (number, feature) in second.iter().enumerate() {
        keep_place(&mut keys, &mut places, feature, first.len() + number)?;
    }
    Ok(Items::from_vec(places))
}

/// Keeps the place of a feature, unless one before it sets the same bit.
fn keep_place<'a>(
    keys: &mut IndexSet<BitKey<'a>>,
    places: &mut Vec<u32>,
    feature: &'a Feature,
    place: usize,
) -> Result<(), AllocError>
    ensures keys { OnOk result ((before : List Said) → AreKeys before keys.old.keys
        → AreKeys (before ++ feature.now ∷ []) keys.new.keys) }
    ensures places { OnOk result ((before all : List Said) → AreKeys before keys.old.keys
        → AddsAt all before feature.now place places.old.items places.new.items) }
{
    let key = BitKey {
        name: feature.name.as_bytes(),
        bit: feature.bit,
    };
    if keys.contains(&key) {
        return Ok(());
    }
    keys.insert(key)?;
    places.push(place_number(place)?)?;
    Ok(())
}

/// A place in a list as a number of 32 bits. A list of more than 2^32 is told as want of memory.
fn place_number(place: usize) -> Result<u32, AllocError>
    ensures { IfOk result (λ n. n ≡ place) }
{
    match u32::try_from(place) {
        Ok(number) => Ok(number),
        Err(_) => Err(AllocError),
    }
}
