ghost use Rattle.std.specs.Option.{is_some};
ghost use Rattle.std.specs.Prelude.{◌≡◌, ◌≤◌, ◌<◌, ◌^◌, IfOk, OnOk, length, map, take};
ghost use Rattle.arch_build.specs.NamePlaces.{ArePlaces, found_place, place_of, AddsPlace};
ghost use Rattle.arch_types.specs.Models.{model_names};
ghost use Rattle.arch_types.specs.Tree.{block_names};

use arch_types::{CellModel, PbType};
use std::alloc::{AllocError, Global};
use std::collections::HashMap;
use std::marker::Model;

/// A list of names that tells of each name its first place. Contracts see it as the list.
#[derive(Drop)]
pub struct NamePlaces<'a> {
    names: Vec<&'a [u8]>,
    first: HashMap<&'a [u8], u32>,
}

impl<'a> Model for NamePlaces<'a> {
    ghost use Rattle.std.specs.Prelude.{List, ℕ, ◌<◌, ◌^◌, map, length};
    ghost use Rattle.arch_build.specs.NamePlaces.{ArePlaces};

    ghost Value = { List (List ℕ) };

    ghost view = { λ p. map (λ n. n.now) p.names.items };

    ghost invariant = { λ p. ArePlaces (map (λ n. n.now) p.names.items) p.first
        × (length p.names.items < 2 ^ 32) };
}

impl<'a> NamePlaces<'a> {
    /// The places of these names. A list of 2^32 names or more is told as want of memory.
    fn of(alloc: Global, names: Vec<&'a [u8]>) -> Result<NamePlaces<'a>, AllocError>
        ensures { IfOk result (λ p. p ≡ map (λ n. n.now) names.entry.items) }
    {
        if names.len() > u32::MAX as usize {
            return Err(AllocError);
        }
        let first = first_places(alloc, names.as_slice())?;
        Ok(NamePlaces { names, first })
    }

    /// The names of models.
    pub fn of_models(alloc: Global, models: &'a [CellModel]) -> Result<NamePlaces<'a>, AllocError>
        ensures { IfOk result (λ p. p ≡ model_names models.now) }
    {
        NamePlaces::of(alloc, names_of_models(alloc, models)?)
    }

    /// The names of block types.
    pub fn of_blocks(alloc: Global, blocks: &'a [PbType]) -> Result<NamePlaces<'a>, AllocError>
        ensures { IfOk result (λ p. p ≡ block_names blocks.now) }
    {
        NamePlaces::of(alloc, names_of_blocks(alloc, blocks)?)
    }

    /// Whether the name stands in the list.
    pub fn has(&self, name: &[u8]) -> bool
        ensures { result ≡ is_some (found_place self.now name.now) }
    {
        self.first.contains_key(name)
    }

    /// The first place of a name; the length of the list where the name doesn't stand in it.
    pub fn place(&self, name: &[u8]) -> u32
        ensures { result ≡ place_of self.now name.now }
    {
        match self.first.get(name) {
            Some(place) => *place,
            None => self.names.len() as u32,
        }
    }
}

fn first_places<'a>(alloc: Global, names: &[&'a [u8]]) -> Result<HashMap<&'a [u8], u32>, AllocError>
    requires { length names.now < 2 ^ 32 }
    ensures { IfOk result (ArePlaces (map (λ n. n.now) names.now)) }
{
    let mut first = HashMap::new(alloc);
    for (place, name) in names.iter().enumerate() {
        push_place(&mut first, *name, place as u32)?;
    }
    Ok(first)
}

/// Adds a name's place, unless it has one.
fn push_place<'a>(
    first: &mut HashMap<&'a [u8], u32>,
    name: &'a [u8],
    place: u32,
) -> Result<(), AllocError>
    ensures { OnOk result (AddsPlace name.now place first.old first.new) }
{
    if !first.contains_key(name) {
        first.insert(name, place)?;
    }
    Ok(())
}

fn names_of_models<'a>(alloc: Global, models: &'a [CellModel]) -> Result<Vec<&'a [u8]>, AllocError>
    ensures { IfOk result (λ names. map (λ n. n.now) names.items ≡ model_names models.now) }
{
    let mut names = Vec::new(alloc);
    for model in models {
        names.push(model.name.as_bytes())?;
    }
    Ok(names)
}

fn names_of_blocks<'a>(alloc: Global, blocks: &'a [PbType]) -> Result<Vec<&'a [u8]>, AllocError>
    ensures { IfOk result (λ names. map (λ n. n.now) names.items ≡ block_names blocks.now) }
{
    let mut names = Vec::new(alloc);
    for block in blocks {
        names.push(block.name.as_bytes())?;
    }
    Ok(names)
}
