ghost use Rattle.std.specs.Prelude.{◌≡◌, ◌≤◌, length, map, IfOk, IfErr};
ghost use Rattle.atom_lists.specs.Lists.{SpellsAtoms, RefusesAtoms, SpellAtoms, Refuses, IsTooLong, entries_of};

use crate::{TaskError, atoms_by_name};
use names::LentNames;
use net_types::Netlist;
use sqlite_items::Items;
use std::alloc::Global;
use text_parts::next_line;

/// How many atoms a task has at most.
const MOST: usize = 4096;

/// Reads a list of atoms: one name of an atom a line, empty lines passed over. The answer has their
/// numbers in the netlist. It takes time linear in the bytes and the atoms of the netlist.
pub fn read_atoms(alloc: Global, bytes: &[u8], net: &Netlist) -> Result<Items<u32>, TaskError>
    ensures spells { IfOk result (SpellsAtoms net.now.atoms bytes.now) }
    ensures refused { IfErr result (RefusesAtoms net.now.atoms bytes.now) }
{
    let entries = entries(alloc, bytes)?;
    let known = atoms_by_name(alloc, net)?;
    numbers(alloc, entries.as_slice(), &known)
}

/// The lines that aren't empty, where they aren't too many.
fn entries<'a>(alloc: Global, bytes: &'a [u8]) -> Result<Vec<&'a [u8]>, TaskError>
    ensures entries { IfOk result (λ found. map (λ line. line.now) found.items
        ≡ entries_of bytes.now) }
    ensures few { IfOk result (λ found. length found.items ≤ 4096) }
    ensures refused { IfErr result (IsTooLong (entries_of bytes.now)) }
{
    let mut found = Vec::new(alloc);
    let mut rest = bytes;
    while let Some((line, behind)) = next_line(rest) {
        rest = behind;
        if line.is_empty() {
            continue;
        }
        if found.len() == MOST {
            return Err(TaskError::TooManyAtoms);
        }
        found.push(line)?;
    }
    Ok(found)
}

/// The numbers of the atoms with these names.
fn numbers(alloc: Global, entries: &[&[u8]], known: &LentNames<'_>) -> Result<Items<u32>, TaskError>
    requires { length entries.now ≤ 4096 }
    ensures spells { IfOk result (SpellAtoms known.now (map (λ line. line.now) entries.now)) }
    ensures refused { IfErr result (Refuses known.now (map (λ line. line.now) entries.now)) }
{
    let mut seen = LentNames::new(alloc);
    let mut numbers = Vec::new(alloc);
    for entry in entries {
        let Some(number) = known.find(entry) else {
            return Err(TaskError::NoSuchAtom {
                place: seen.count(),
            });
        };
        if let Some(_earlier) = seen.find(entry) {
            return Err(TaskError::Twice {
                place: seen.count(),
            });
        }
        seen.add(entry)?;
        numbers.push(number)?;
    }
    Ok(Items::from_vec(numbers))
}
