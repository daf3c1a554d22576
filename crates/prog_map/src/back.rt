ghost use Rattle.std.specs.Prelude.{◌≡◌, ◌<◌, ℕ, IfSome, MatchOption, Some, length};
ghost use Rattle.prog_map.specs.declared.choice.LutChoice.TheVariants.{Wire};
ghost use Rattle.prog_map.specs.Choices.{IsProgOf, lut_of, mode_of};
ghost use Rattle.prog_map.specs.Live.{AreLive};
ghost use Rattle.prog_map.specs.Back.{StepsBack, StepsBackIn, StepsByEdge, StepsThrough};

use crate::leaf::{inputs_of, is_output};
use crate::live::lives;
use crate::{LutChoice, Prog};
use pb_expand::{PbGraph, PbIx, PinIx};

/// The pin that is one step back: the source of the edge that the pin takes in a mode to which the
/// edge's owner is set, where the owner is live; or, where the pin is the output of a live used LUT
/// that holds `wire i`, that LUT's input i. `live` says of each instance whether it is live, as
/// `live_instances` does; so a step takes constant time.
pub fn follow(graph: &PbGraph, prog: &Prog, live: &[bool], pin: PinIx) -> Option<PinIx>
    requires inside { pin.0 < length graph.now.pins }
    requires of { IsProgOf graph.now prog.now }
    requires live { AreLive graph.now (mode_of prog.now) live.now }
    ensures exact { MatchOption result ((p : ℕ) → StepsBack graph.now prog.now pin.0 p → ⊥)
        (λ p. StepsBack graph.now prog.now pin.0 p.0) }
    ensures inside { IfSome result (λ p. p.0 < length graph.now.pins) }
{
    if let Some(source) = step_by_edge(graph, prog, live, pin) {
        return Some(source);
    }
    step_through(graph, prog, live, pin)
}

/// The source of the edge that the pin takes.
fn step_by_edge(graph: &PbGraph, prog: &Prog, live: &[bool], pin: PinIx) -> Option<PinIx>
    requires inside { pin.0 < length graph.now.pins }
    requires of { IsProgOf graph.now prog.now }
    requires live { AreLive graph.now (mode_of prog.now) live.now }
    ensures exact { MatchOption result ((p : ℕ) → StepsByEdge graph.now prog.now pin.0 p → ⊥)
        (λ p. StepsByEdge graph.now prog.now pin.0 p.0) }
    ensures inside { IfSome result (λ p. p.0 < length graph.now.pins) }
{
    graph.law();
    let owner = graph.pin_at(pin).pb;
    if let Some(source) = step_in(graph, prog, live, pin, owner) {
        return Some(source);
    }
    match graph.address_of(owner) {
        None => None,
        Some(step) => step_in(graph, prog, live, pin, step.parent),
    }
}

/// The same for an edge of this owner.
fn step_in(graph: &PbGraph, prog: &Prog, live: &[bool], pin: PinIx, owner: PbIx) -> Option<PinIx>
    requires inside { owner.0 < length graph.now.instances }
    requires of { IsProgOf graph.now prog.now }
    requires live { AreLive graph.now (mode_of prog.now) live.now }
    ensures exact { MatchOption result ((p : ℕ) → StepsBackIn graph.now prog.now owner.0 pin.0 p
        → ⊥) (λ p. StepsBackIn graph.now prog.now owner.0 pin.0 p.0) }
    ensures inside { IfSome result (λ p. p.0 < length graph.now.pins) }
{
    let mode = prog.mode_of(owner)?;
    let chosen = prog.edge_of(pin, mode)?;
    let edge = graph.edge(chosen);
    if edge.owner != owner {
        return None;
    }
    if !lives(graph, prog, live, owner) {
        return None;
    }
    Some(edge.src)
}

/// The input that a LUT passes on to its output.
fn step_through(graph: &PbGraph, prog: &Prog, live: &[bool], pin: PinIx) -> Option<PinIx>
    requires inside { pin.0 < length graph.now.pins }
    requires live { AreLive graph.now (mode_of prog.now) live.now }
    ensures exact { MatchOption result ((p : ℕ) → StepsThrough graph.now prog.now pin.0 p → ⊥)
        (λ p. StepsThrough graph.now prog.now pin.0 p.0) }
    ensures inside { IfSome result (λ p. p.0 < length graph.now.pins) }
{
    graph.law();
    let at = graph.pin_at(pin);
    if !is_output(graph, at) {
        return None;
    }
    let inputs = inputs_of(graph, at.pb)?;
    let input = passed_by(prog, at.pb)?;
    if !prog.used(at.pb) {
        return None;
    }
    if !lives(graph, prog, live, at.pb) {
        return None;
    }
    graph.pin_of(at.pb, inputs.port, input)
}

/// Which of its inputs a LUT passes on.
fn passed_by(prog: &Prog, pb: PbIx) -> Option<u32>
    ensures { MatchOption result ((input : ℕ) → lut_of prog.now pb.0 ≡ Some (Wire input) → ⊥)
        (λ input. lut_of prog.now pb.0 ≡ Some (Wire input)) }
{
    match prog.lut(pb)? {
        LutChoice::Wire(input) => Some(*input),
        LutChoice::Table(_) => None,
    }
}
