ghost use Rattle.std.specs.Prelude.{◌≡◌, ◌≤◌, ◌+◌, ◌∷◌, [], MatchOption};
ghost use Rattle.blif_order.specs.Queues.{IsAllTaken, IsBlocked, Takes, TakesElement, seen};
ghost use Rattle.blif_order.specs.Tops.{top_of};

use crate::known::known_after;
use net_types::Atom;

/// The atoms whose lines are still to be put in order: inputs, outputs, and the others.
#[derive(Clone, Copy)]
pub(crate) struct Queues<'q, 'a> {
    pub(crate) inputs: &'q [&'a Atom],
    pub(crate) outputs: &'q [&'a Atom],
    pub(crate) elements: &'q [&'a Atom],
    /// The nets below this number were mentioned.
    pub(crate) known: u64,
}

/// The next line, and those behind it: that of an input or an output whose net may be mentioned
/// next, or else that of the next other atom.
pub(crate) fn next_line<'q, 'a>(queues: Queues<'q, 'a>) -> Option<(&'a Atom, Queues<'q, 'a>)>
    ensures { MatchOption result (IsAllTaken queues.entry)
        (λ r. Takes queues.entry r.0.now r.1) }
{
    if let Some((atom, inputs, known)) = next_pad(queues.inputs, queues.known) {
        let outputs = queues.outputs;
        let elements = queues.elements;
        return Some((
            atom,
            Queues {
                inputs,
                outputs,
                elements,
                known,
            },
        ));
    }
    if let Some((atom, outputs, known)) = next_pad(queues.outputs, queues.known) {
        let inputs = queues.inputs;
        let elements = queues.elements;
        return Some((
            atom,
            Queues {
                inputs,
                outputs,
                elements,
                known,
            },
        ));
    }
    next_element(queues)
}

/// The next line that isn't of an input or an output, and those behind it.
fn next_element<'q, 'a>(queues: Queues<'q, 'a>) -> Option<(&'a Atom, Queues<'q, 'a>)>
    ensures { MatchOption result (seen queues.entry.elements.now ≡ [])
        (λ r. TakesElement queues.entry r.0.now r.1) }
{
    let (atom, elements) = queues.elements.split_first()?;
    let known = known_after(queues.known, atom);
    let inputs = queues.inputs;
    let outputs = queues.outputs;
    Some((
        atom,
        Queues {
            inputs,
            outputs,
            elements,
            known,
        },
    ))
}

/// The first of these inputs, or of these outputs, where its net was mentioned or is the next one.
fn next_pad<'q, 'a>(pads: &'q [&'a Atom], known: u64) -> Option<(&'a Atom, &'q [&'a Atom], u64)>
    ensures { MatchOption result (IsBlocked (seen pads.now) known)
        (λ r. (seen pads.now ≡ r.0.now ∷ seen r.1.now) × (r.2 ≡ top_of known r.0.now)
        × (r.2 ≤ known + 1)) }
{
    let (atom, rest) = pads.split_first()?;
    let behind = known_after(known, atom);
    if behind - known > 1 {
        return None;
    }
    Some((atom, rest, behind))
}
