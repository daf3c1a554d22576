ghost use Rattle.std.specs.Prelude.{◌≡◌, ◌<◌, ◌++◌, OnOk, flat_map, length};
ghost use Rattle.tree_lines.specs.Nodes.{task_names};
ghost use Rattle.tree_text.specs.Text.{HasAtoms};
ghost use Rattle.tree_write.specs.Spelling.{atom_word, need_word, pin_word};
ghost use Rattle.tree_write.specs.There.{ArePins, ArePlaces};

use net_types::Netlist;
use pb_expand::{PbGraph, PinIx};
use prog_text::put_pin;
use std::alloc::AllocError;
use task_types::Task;
use vtr_base::put_number;

/// Appends the names of atoms of the task, each behind a blank.
pub(crate) fn put_atoms(
    out: &mut Vec<u8>,
    net: &Netlist,
    task: &Task,
    places: &[u32],
) -> Result<(), AllocError>
    requires atoms { HasAtoms net.now.atoms task.now }
    requires there { ArePlaces (length task.now.atoms) places.now }
    ensures { OnOk result (out.new.items ≡ out.old.items
        ++ flat_map (atom_word (task_names net.now.atoms task.now)) places.now) }
{
    for place in places {
        put_atom(out, net, task, *place)?;
    }
    Ok(())
}

/// Appends the name of an atom of the task behind a blank.
fn put_atom(out: &mut Vec<u8>, net: &Netlist, task: &Task, place: u32) -> Result<(), AllocError>
    requires atoms { HasAtoms net.now.atoms task.now }
    requires there { place < length task.now.atoms }
    ensures { OnOk result (out.new.items ≡ out.old.items
        ++ atom_word (task_names net.now.atoms task.now) place) }
{
    let number = task.atoms.as_slice()[place as usize];
    out.push(b' ')?;
    out.extend_from_slice(net.atoms()[number as usize].name.as_bytes())
}

/// Appends needs, each behind a blank.
pub(crate) fn put_needs(out: &mut Vec<u8>, needs: &[u32]) -> Result<(), AllocError>
    ensures { OnOk result (out.new.items ≡ out.old.items ++ flat_map need_word needs.now) }
{
    for need in needs {
        put_need(out, *need)?;
    }
    Ok(())
}

/// Appends a need behind a blank.
pub(crate) fn put_need(out: &mut Vec<u8>, need: u32) -> Result<(), AllocError>
    ensures { OnOk result (out.new.items ≡ out.old.items ++ need_word need) }
{
    out.push(b' ')?;
    put_number(out, u64::from(need))
}

/// Appends the names of pins, each behind a blank.
pub(crate) fn put_pins(out: &mut Vec<u8>, graph: &PbGraph, pins: &[PinIx]) -> Result<(), AllocError>
    requires { ArePins graph.now pins.now }
    ensures { OnOk result (out.new.items ≡ out.old.items
        ++ flat_map (pin_word graph.now) pins.now) }
{
    for pin in pins {
        out.push(b' ')?;
        put_pin(out, graph, *pin)?;
    }
    Ok(())
}
