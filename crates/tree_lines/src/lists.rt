ghost use Rattle.std.specs.Prelude.{ℕ, List, IfOk, MatchOption};
ghost use Rattle.pb_expand.specs.declared.number.PinIx.{PinIx as Pin};
ghost use Rattle.prog_text.specs.Table.{AreNamesOf};
ghost use Rattle.tree_lines.specs.Words.{AreEach, IsNeed, NamesAtom, IsPin, texts};

use crate::numbers::need;
use names::LentNames;
use pb_expand::{PbGraph, PinIx};
use prog_text::GraphNames;
use sqlite_items::Items;
use std::alloc::{AllocError, Global};
use task_types::Task;

/// The places of atoms of the task, by their names; none where some name isn't one of theirs.
pub(crate) fn atoms_named(
    alloc: Global,
    words: &[&[u8]],
    atoms: &LentNames<'_>,
) -> Result<Option<Items<u32>>, AllocError>
    ensures { IfOk result (λ found. MatchOption found
        ((xs : List ℕ) → AreEach (NamesAtom atoms.now) (texts words.now) xs → ⊥)
        (AreEach (NamesAtom atoms.now) (texts words.now))) }
{
    let mut found = Vec::new(alloc);
    for word in words {
        let Some(atom) = atoms.find(word) else {
            return Ok(None);
        };
        found.push(atom)?;
    }
    Ok(Some(Items::from_vec(found)))
}

/// Needs of the task, by their numbers; none where some word is no need's.
pub(crate) fn needs(
    alloc: Global,
    words: &[&[u8]],
    task: &Task,
) -> Result<Option<Items<u32>>, AllocError>
    ensures { IfOk result (λ found. MatchOption found
        ((xs : List ℕ) → AreEach (IsNeed task.now) (texts words.now) xs → ⊥)
        (AreEach (IsNeed task.now) (texts words.now))) }
{
    let mut found = Vec::new(alloc);
    for word in words {
        let Some(number) = need(word, task) else {
            return Ok(None);
        };
        found.push(number)?;
    }
    Ok(Some(Items::from_vec(found)))
}

/// Pins of the graph, by their names; none where some name is no pin's.
pub(crate) fn pins_named(
    alloc: Global,
    words: &[&[u8]],
    graph: &PbGraph,
    names: &GraphNames,
) -> Result<Option<Items<PinIx>>, AllocError>
    requires { AreNamesOf graph.now names.now }
    ensures { IfOk result (λ found. MatchOption found
        ((xs : List Pin) → AreEach (IsPin graph.now) (texts words.now) xs → ⊥)
        (AreEach (IsPin graph.now) (texts words.now))) }
{
    let mut found = Vec::new(alloc);
    for word in words {
        let Some(pin) = names.pin(graph, word) else {
            return Ok(None);
        };
        found.push(pin)?;
    }
    Ok(Some(Items::from_vec(found)))
}
