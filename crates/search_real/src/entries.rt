ghost use Rattle.std.specs.Prelude.{◌≡◌, ◌<◌, ◌+◌, IfOk, OnOk, length};
ghost use Rattle.task_types.specs.declared.task.Entries.TheVariants.{Free};
ghost use Rattle.task_reach.specs.Valid.{IsTaskOf};
ghost use Rattle.search_free.specs.Held.{AreHeld};
ghost use Rattle.search_real.specs.Entered.{HasRightEntries, HasEntriesBefore, AreEntered};

use pb_expand::{PbGraph, PinIx};
use sqlite_items::Items;
use std::alloc::{AllocError, Global};
use task_trail::Trail;
use task_types::{Entries, Entry, Task};

/// What comes in, by ascending pins.
pub(crate) fn entries_of(
    alloc: Global,
    graph: &PbGraph,
    task: &Task,
    trail: &Trail,
) -> Result<Items<Entry>, AllocError>
    requires task { IsTaskOf graph.now task.now }
    requires entries { HasRightEntries graph.now task.now }
    requires pins { trail.now.pins ≡ length graph.now.pins }
    requires held { AreHeld graph.now task.now trail.now.made }
    ensures { IfOk result (AreEntered graph.now task.now trail.now.made) }
{
    match &task.entries {
        Entries::Free => decided(alloc, graph, task, trail),
        Entries::Fixed(fixed) => Items::from_slice(alloc, fixed.as_slice()),
    }
}

/// What was decided to come in, by ascending pins.
fn decided(
    alloc: Global,
    graph: &PbGraph,
    task: &Task,
    trail: &Trail,
) -> Result<Items<Entry>, AllocError>
    requires pins { trail.now.pins ≡ length graph.now.pins }
    requires held { AreHeld graph.now task.now trail.now.made }
    requires free { task.now.entries ≡ Free }
    ensures { IfOk result (AreEntered graph.now task.now trail.now.made) }
{
    let _ = task;
    let mut entries = Vec::new(alloc);
    for pin in 0..graph.pins() {
        push_entry(trail, PinIx(pin), &mut entries)?;
    }
    Ok(Items::from_vec(entries))
}

/// Adds what was decided to come in at one pin.
fn push_entry(trail: &Trail, pin: PinIx, entries: &mut Vec<Entry>) -> Result<(), AllocError>
    requires inside { pin.0 < trail.now.pins }
    requires before { HasEntriesBefore trail.now.made entries.old.items pin.0 }
    ensures { OnOk result (HasEntriesBefore trail.now.made entries.new.items (pin.0 + 1)) }
{
    if let Some(Some(net)) = trail.entry_in(pin) {
        entries.push(Entry { pin, net })?;
    }
    Ok(())
}
