ghost use Rattle.std.specs.Prelude.{◌≡◌, ◌<◌, Some, [], IfOk, OnOk, IsSome, length};
ghost use Rattle.prog_map.specs.Choices.{IsProgOf, mode_of};
ghost use Rattle.prog_map.specs.Live.{AreLive};
ghost use Rattle.prog_map.specs.Walk.{AreLastPins};
ghost use Rattle.std.specs.Option.{option_map};
ghost use Rattle.prog_map.specs.Leaves.{port_at};
ghost use Rattle.cmd_trace.specs.Lines.{AreAnswers, leaf_inputs, leaf_input_at, is_leaf, is_input, AddsLine, AddsAnswer};

use arch_types::Side;
use pb_expand::{PbGraph, PbKind, PinAt, PinIx};
use prog_map::{Prog, follow, last_pins, live_instances};
use prog_text::put_pin;
use std::alloc::{AllocError, Global};

/// One line for each input pin of a leaf, in the order of the pins: the pin, a space, and the last
/// pin of the walk back from it, or `open`.
pub fn answers(alloc: Global, graph: &PbGraph, prog: &Prog) -> Result<Vec<u8>, AllocError>
    requires { IsProgOf graph.now prog.now }
    ensures { IfOk result (λ text. AreAnswers graph.now prog.now (leaf_inputs graph.now)
        text.items) }
{
    let live = live_instances(alloc, graph, prog)?;
    let last = last_pins(alloc, graph, prog, live.as_slice())?;
    let mut text = Vec::new(alloc);
    put_lines(&mut text, graph, prog, live.as_slice(), last.as_slice())?;
    Ok(text)
}

/// Writes the lines into an empty text. `live` says which instances are live, and `last` what the
/// walk back from each pin ends at.
fn put_lines(
    text: &mut Vec<u8>,
    graph: &PbGraph,
    prog: &Prog,
    live: &[bool],
    last: &[PinIx],
) -> Result<(), AllocError>
    requires of { IsProgOf graph.now prog.now }
    requires empty { text.old.items ≡ [] }
    requires live { AreLive graph.now (mode_of prog.now) live.now }
    requires last { AreLastPins graph.now prog.now last.now }
    ensures { OnOk result (AreAnswers graph.now prog.now (leaf_inputs graph.now) text.new.items) }
{
    for pin in 0..graph.pins() {
        if !is_leaf_input(graph, PinIx(pin)) {
            continue;
        }
        put_line(text, graph, prog, live, last, PinIx(pin))?;
    }
    Ok(())
}

/// Whether a pin is an input pin of a leaf.
fn is_leaf_input(graph: &PbGraph, pin: PinIx) -> bool
    requires { pin.0 < length graph.now.pins }
    ensures { result ≡ leaf_input_at graph.now pin.0 }
{
    graph.law();
    let at = graph.pin_at(pin);
    if !is_leaf(graph.kind(at.pb)) {
        return false;
    }
    is_input(side_of(graph, at))
}

fn is_leaf(kind: PbKind) -> bool
    ensures { result ≡ is_leaf kind }
{
    match kind {
        PbKind::Leaf(_) => true,
        PbKind::Modes(_) => false,
    }
}

fn is_input(side: Side) -> bool
    ensures { result ≡ is_input side }
{
    match side {
        Side::Input => true,
        Side::Output | Side::Clock => false,
    }
}

/// The side of the port of a pin.
fn side_of(graph: &PbGraph, at: PinAt) -> Side
    requires inside { at.pb.0 < length graph.now.instances }
    requires there { IsSome (port_at graph.now at) }
    ensures { option_map (λ port. port.side) (port_at graph.now at) ≡ Some result }
{
    graph.ports(at.pb)[at.port as usize].side
}

/// Appends the line of a pin.
fn put_line(
    text: &mut Vec<u8>,
    graph: &PbGraph,
    prog: &Prog,
    live: &[bool],
    last: &[PinIx],
    pin: PinIx,
) -> Result<(), AllocError>
    requires inside { pin.0 < length graph.now.pins }
    requires of { IsProgOf graph.now prog.now }
    requires live { AreLive graph.now (mode_of prog.now) live.now }
    requires last { AreLastPins graph.now prog.now last.now }
    ensures { OnOk result (AddsLine graph.now prog.now pin.0 text.old.items text.new.items) }
{
    put_pin(text, graph, pin)?;
    text.push(b' ')?;
    put_answer(text, graph, prog, live, last, pin)?;
    text.push(b'\n')?;
    Ok(())
}

/// Appends the name of the last pin of the walk back, or `open`.
fn put_answer(
    text: &mut Vec<u8>,
    graph: &PbGraph,
    prog: &Prog,
    live: &[bool],
    last: &[PinIx],
    pin: PinIx,
) -> Result<(), AllocError>
    requires inside { pin.0 < length graph.now.pins }
    requires of { IsProgOf graph.now prog.now }
    requires live { AreLive graph.now (mode_of prog.now) live.now }
    requires last { AreLastPins graph.now prog.now last.now }
    ensures { OnOk result (AddsAnswer graph.now prog.now pin.0 text.old.items text.new.items) }
{
    graph.law();
    match follow(graph, prog, live, pin) {
        None => text.extend_from_slice(b"open"),
        Some(_) => put_pin(text, graph, last[pin.0 as usize]),
    }
}
