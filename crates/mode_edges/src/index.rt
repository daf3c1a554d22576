ghost use Rattle.std.specs.Prelude.{◌≡◌, map, IfOk, OnOk};
ghost use Rattle.mode_edges.specs.Scopes.{places_in, IsIndex, AddsName, FindsName};

use arch_types::{PbType, Port};
use indexmap::IndexMap;
use std::alloc::{AllocError, Global};

/// The names of a list, each with its first place.
pub(crate) type NameIndex<'a> = IndexMap<&'a [u8], u32>;

/// The first places of the ports' names.
pub(crate) fn index_ports<'a>(alloc: Global, ports: &'a [Port]) -> Result<NameIndex<'a>, AllocError>
    ensures { IfOk result (λ index. IsIndex (map (λ p. p.name) ports.now) (places_in index)) }
{
    let mut index = IndexMap::new(alloc);
    for (place, port) in ports.iter().enumerate() {
        add_name(&mut index, port.name.as_bytes(), place)?;
    }
    Ok(index)
}

/// The first places of the children's names.
pub(crate) fn index_kids<'a>(alloc: Global, kids: &'a [PbType]) -> Result<NameIndex<'a>, AllocError>
    ensures { IfOk result (λ index. IsIndex (map (λ kid. kid.name) kids.now) (places_in index)) }
{
    let mut index = IndexMap::new(alloc);
    for (place, kid) in kids.iter().enumerate() {
        add_name(&mut index, kid.name.as_bytes(), place)?;
    }
    Ok(index)
}

/// Adds the next name and its place, unless the name is there.
fn add_name<'a>(index: &mut NameIndex<'a>, name: &'a [u8], place: usize) -> Result<(), AllocError>
    ensures { OnOk result (AddsName (places_in index.old) (places_in index.new) name.now place) }
{
    if !index.contains_key(name) {
        index.insert(name, place_number(place)?)?;
    }
    Ok(())
}

/// A place in a list as a number of 32 bits. A list of more than 2^32 is told as want of memory.
pub(crate) fn place_number(place: usize) -> Result<u32, AllocError>
    ensures { IfOk result (λ n. n ≡ place) }
{
    match u32::try_from(place) {
        Ok(number) => Ok(number),
        Err(_) => Err(AllocError),
    }
}

/// The first place of a name.
pub(crate) fn find_name(index: &NameIndex<'_>, name: &[u8]) -> Option<u32>
    ensures { FindsName (places_in index.now) name.now result }
{
    index.get(name).copied()
}
