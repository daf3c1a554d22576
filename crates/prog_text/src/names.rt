ghost use Rattle.std.specs.Prelude.{◌≡◌, ◌<◌, ◌++◌, length, IsSome, OnOk};
ghost use Rattle.prog_text.specs.Names.{index_text, step_text, instance_name, port_text, pin_name};
ghost use Rattle.prog_map.specs.Leaves.{port_at};

use pb_expand::{PbGraph, PbIx, PinAt, PinIx};
use std::alloc::AllocError;
use vtr_base::put_number;

/// Appends how an instance is written: the block type's name, and `/MODE:CHILD[i]` for each step
/// down from the root.
pub fn put_instance(out: &mut Vec<u8>, graph: &PbGraph, pb: PbIx) -> Result<(), AllocError>
    requires { pb.0 < length graph.now.instances }
    ensures { OnOk result (out.new.items ≡ out.old.items ++ instance_name graph.now pb.0) }
{
    graph.law();
    match graph.address_of(pb) {
        None => out.extend_from_slice(graph.pb_name(pb).as_bytes()),
        Some(step) => {
            put_instance(out, graph, step.parent)?;
            let mode = graph.mode_name(step.parent, step.mode);
            put_step(out, mode, graph.pb_name(pb), step.instance)
        }
    }
}

/// Appends how a pin is written: its instance, a dot, the port, and the bit in brackets.
pub fn put_pin(out: &mut Vec<u8>, graph: &PbGraph, pin: PinIx) -> Result<(), AllocError>
    requires { pin.0 < length graph.now.pins }
    ensures { OnOk result (out.new.items ≡ out.old.items ++ pin_name graph.now pin.0) }
{
    graph.law();
    let at = graph.pin_at(pin);
    put_instance(out, graph, at.pb)?;
    out.push(b'.')?;
    out.extend_from_slice(port_name(graph, at).as_bytes())?;
    put_index(out, at.bit)
}

/// The name of the port of a pin.
fn port_name(graph: &PbGraph, at: PinAt) -> &str
    requires inside { at.pb.0 < length graph.now.instances }
    requires there { IsSome (port_at graph.now at) }
    ensures { port_text graph.now at ≡ result.now }
{
    graph.ports(at.pb)[at.port as usize].name.as_str()
}

fn put_step(out: &mut Vec<u8>, mode: &str, child: &str, instance: u32) -> Result<(), AllocError>
    ensures { OnOk result (out.new.items ≡ out.old.items ++ step_text mode.now child.now instance) }
{
    out.push(b'/')?;
    out.extend_from_slice(mode.as_bytes())?;
    out.push(b':')?;
    out.extend_from_slice(child.as_bytes())?;
    put_index(out, instance)
}

fn put_index(out: &mut Vec<u8>, n: u32) -> Result<(), AllocError>
    ensures { OnOk result (out.new.items ≡ out.old.items ++ index_text n) }
{
    out.push(b'[')?;
    put_number(out, u64::from(n))?;
    out.push(b']')?;
    Ok(())
}
