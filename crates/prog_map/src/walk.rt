ghost use Rattle.std.specs.Prelude.{◌≡◌, ◌<◌, ℕ, IfOk, IfSome, MatchOption, length, map};
ghost use Rattle.prog_map.specs.Choices.{IsProgOf, mode_of};
ghost use Rattle.prog_map.specs.Live.{AreLive};
ghost use Rattle.prog_map.specs.Back.{StepsBack};
ghost use Rattle.prog_map.specs.Walk.{AreLastPins, AreSteps};

use crate::ends::ends_of;
use crate::{Prog, follow};
use pb_expand::{PbGraph, PinIx};
use std::alloc::{AllocError, Global};

/// For each pin the last pin of the walk back from it: the walk ends where no step leads on, or
/// before a pin would stand in it a second time. Walks share what they have found, so that all take
/// time in the number of pins. `live` is as for `follow`.
pub fn last_pins(
    alloc: Global,
    graph: &PbGraph,
    prog: &Prog,
    live: &[bool],
) -> Result<Vec<PinIx>, AllocError>
    requires of { IsProgOf graph.now prog.now }
    requires live { AreLive graph.now (mode_of prog.now) live.now }
    ensures { IfOk result (λ last. AreLastPins graph.now prog.now last.items) }
{
    graph.law();
    let steps = steps_back(alloc, graph, prog, live)?;
    let ends = ends_of(alloc, steps.as_slice())?;
    let last = pins_of(alloc, ends.as_slice())?;
    Ok(last)
}

/// The pins of these numbers.
fn pins_of(alloc: Global, numbers: &[u32]) -> Result<Vec<PinIx>, AllocError>
    ensures { IfOk result (λ pins. map (λ pin. pin.0) pins.items ≡ numbers.now) }
{
    let mut pins = Vec::new(alloc);
    for number in numbers {
        pins.push(PinIx(*number))?;
    }
    Ok(pins)
}

/// For each pin the one that is a step back from it.
fn steps_back(
    alloc: Global,
    graph: &PbGraph,
    prog: &Prog,
    live: &[bool],
) -> Result<Vec<Option<u32>>, AllocError>
    requires of { IsProgOf graph.now prog.now }
    requires live { AreLive graph.now (mode_of prog.now) live.now }
    ensures { IfOk result (λ steps. AreSteps graph.now prog.now steps.items) }
{
    let mut steps = Vec::new(alloc);
    for pin in 0..graph.pins() {
        let step = step_number(graph, prog, live, PinIx(pin));
        steps.push(step)?;
    }
    Ok(steps)
}

/// The number of the pin that is a step back from a pin.
fn step_number(graph: &PbGraph, prog: &Prog, live: &[bool], pin: PinIx) -> Option<u32>
    requires inside { pin.0 < length graph.now.pins }
    requires of { IsProgOf graph.now prog.now }
    requires live { AreLive graph.now (mode_of prog.now) live.now }
    ensures exact { MatchOption result ((p : ℕ) → StepsBack graph.now prog.now pin.0 p → ⊥)
        (λ p. StepsBack graph.now prog.now pin.0 p) }
    ensures inside { IfSome result (λ p. p < length graph.now.pins) }
{
    match follow(graph, prog, live, pin) {
        None => None,
        Some(source) => Some(source.0),
    }
}
