ghost use Rattle.std.specs.Prelude.{◌≡◌, ◌<◌, OnOk, IfOk, IfErr, length};
ghost use Rattle.std.specs.Bool.{MatchBool};
ghost use Rattle.prog_map.specs.Choices.{IsProgOf};
ghost use Rattle.real_lines.specs.declared.line.RealLine.TheVariants.{Home, Enter, Choice};
ghost use Rattle.real_text.specs.Order.{IsInOrder, IsFree, IsTaken};
ghost use Rattle.real_text.specs.Steps.{Adds, Denies, nothing_read};

use crate::order::{are_before, is_entered};
use pb_expand::{PbGraph, PbIx, PinIx};
use prog_map::{Prog, Setting, setting_laws};
use prog_text::ProgError;
use sqlite_items::Items;
use std::alloc::Global;
use task_types::{Entry, Real, Task};

/// What was read of a realisation.
#[derive(Drop)]
pub(crate) struct Reading {
    pub(crate) real: Real,
    /// Whether a choice of the programming was read.
    pub(crate) begun: bool,
}

/// Nothing was read yet.
pub(crate) fn nothing(alloc: Global, graph: &PbGraph, task: &Task) -> Result<Reading, ProgError>
    ensures nothing { IfOk result (λ reading. reading.real ≡ nothing_read) }
    ensures order { IfOk result (IsInOrder task.now) }
    ensures of { IfOk result (λ reading. IsProgOf graph.now reading.real.prog) }
    ensures memory { IfErr result (λ e. e ≡ ProgError.OutOfMemory) }
{
    let _task = task;
    let real = Real {
        prog: Prog::empty(alloc, graph)?,
        homes: Items::new(alloc),
        entries: Items::new(alloc),
    };
    Ok(Reading { real, begun: false })
}

/// Takes the home of the next atom, which the line of that number tells.
pub(crate) fn take_home(
    reading: &mut Reading,
    task: &Task,
    place: u32,
    leaf: PbIx,
    line: u32,
) -> Result<(), ProgError>
    requires order { IsInOrder task.now reading.old }
    requires inside { place < length task.now.atoms }
    ensures adds { OnOk result (Adds task.now (Home place leaf) reading.old.real reading.new.real) }
    ensures order { OnOk result (IsInOrder task.now reading.new) }
    ensures denied { IfErr result (λ e. Denies task.now (Home place leaf) reading.old.real e line) }
{
    let _task = task;
    if place as usize != reading.real.homes.len() {
        return Err(ProgError::TwiceSet { line });
    }
    reading.real.homes.push(leaf)?;
    Ok(())
}

/// Takes the next entry.
pub(crate) fn take_entry(
    reading: &mut Reading,
    task: &Task,
    entry: Entry,
    line: u32,
) -> Result<(), ProgError>
    requires { IsInOrder task.now reading.old }
    ensures adds { OnOk result (Adds task.now (Enter entry) reading.old.real reading.new.real) }
    ensures order { OnOk result (IsInOrder task.now reading.new) }
    ensures denied { IfErr result (λ e. Denies task.now (Enter entry) reading.old.real e line) }
{
    if reading.real.homes.len() < task.atoms.len() {
        return Err(ProgError::TwiceSet { line });
    }
    if is_next(reading, task, entry.pin) {
        reading.real.entries.push(entry)?;
        return Ok(());
    }
    if is_entered(reading.real.entries.as_slice(), entry.pin) {
        return Err(ProgError::TwiceSet { line });
    }
    Err(ProgError::BadLine { line })
}

/// Whether an entry at the pin may be next: no choice was read, and all entries are before it.
fn is_next(reading: &Reading, task: &Task, pin: PinIx) -> bool
    requires { IsInOrder task.now reading.now }
    ensures { MatchBool result (IsFree reading.now.real pin.0) (IsTaken reading.now.real pin.0) }
{
    let _task = task;
    if reading.begun {
        return false;
    }
    are_before(reading.real.entries.as_slice(), pin)
}

/// Takes a choice of the programming.
pub(crate) fn take_choice(
    reading: &mut Reading,
    task: &Task,
    setting: Setting,
    line: u32,
) -> Result<(), ProgError>
    requires { IsInOrder task.now reading.old }
    ensures adds { OnOk result (Adds task.now (Choice setting) reading.old.real reading.new.real) }
    ensures order { OnOk result (IsInOrder task.now reading.new) }
    ensures denied { IfErr result (λ e. Denies task.now (Choice setting) reading.old.real e line) }
{
    setting_laws();
    if reading.real.homes.len() < task.atoms.len() {
        return Err(ProgError::TwiceSet { line });
    }
    if reading.real.prog.is_set(setting.site()) {
        return Err(ProgError::TwiceSet { line });
    }
    reading.real.prog.set(setting)?;
    reading.begun = true;
    Ok(())
}
