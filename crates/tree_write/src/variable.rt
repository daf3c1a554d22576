ghost use Rattle.std.specs.Prelude.{◌≡◌, ◌<◌, ◌++◌, OnOk, length};
ghost use Rattle.task_types.specs.Options.{IsVar};
ghost use Rattle.tree_write.specs.Spelling.{mode_into_name, var_text};

use pb_expand::{PbGraph, PinIx};
use prog_text::{put_instance, put_pin};
use std::alloc::AllocError;
use task_types::{Task, Var};

/// Appends how a variable is written.
pub(crate) fn put_var(
    out: &mut Vec<u8>,
    graph: &PbGraph,
    task: &Task,
    var: Var,
) -> Result<(), AllocError>
    requires { IsVar graph.now task.now var }
    ensures { OnOk result (out.new.items ≡ out.old.items ++ var_text graph.now var) }
{
    graph.law();
    let _task = task;
    match var {
        Var::Mode(pb) => {
            out.extend_from_slice(b"mode ")?;
            put_instance(out, graph, pb)
        }
        Var::Occupant(pb) => {
            out.extend_from_slice(b"occupant ")?;
            put_instance(out, graph, pb)
        }
        Var::Edge(pin, mode) => {
            out.extend_from_slice(b"edge ")?;
            put_pin(out, graph, pin)?;
            out.push(b' ')?;
            put_mode_into(out, graph, pin, mode)
        }
        Var::Entry(pin) => {
            out.extend_from_slice(b"entry ")?;
            put_pin(out, graph, pin)
        }
    }
}

/// Appends the name of a mode in which edges lead into the pin.
fn put_mode_into(
    out: &mut Vec<u8>,
    graph: &PbGraph,
    pin: PinIx,
    mode: u32,
) -> Result<(), AllocError>
    requires { pin.0 < length graph.now.pins }
    ensures { OnOk result (out.new.items ≡ out.old.items
        ++ mode_into_name graph.now pin.0 mode) }
{
    graph.law();
    graph.lists_ends();
    match graph.edges_into(pin, mode).first() {
        Some(number) => {
            let edge = graph.edge(*number);
            out.extend_from_slice(graph.mode_name(edge.owner, edge.mode).as_bytes())
        }
        None => Ok(()),
    }
}
