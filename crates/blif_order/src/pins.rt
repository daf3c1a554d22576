ghost use Rattle.std.specs.Prelude.{◌≡◌, ◌↔◌, [], IfOk, IsTrue, MatchOption, map};
ghost use Rattle.blif_order.specs.Orders.{IsPinOrder};
ghost use Rattle.blif_order.specs.Pins.{IsInputNext, TakesPin};

use net_types::{Atom, Conn};
use std::alloc::{AllocError, Global};

/// The connections of a box in an order in which its line can mention their nets: inputs and
/// outputs are merged, the lower net first. It takes linear time.
pub fn pin_order<'a>(alloc: Global, atom: &'a Atom) -> Result<Vec<&'a Conn>, AllocError>
    ensures { IfOk result (λ pins. IsPinOrder atom.now (map (λ c. c.now) pins.items)) }
{
    let mut pins = Vec::new(alloc);
    let mut left = PinsLeft {
        ins: atom.ins.as_slice(),
        outs: atom.outs.as_slice(),
    };
    while let Some(pin) = left.next() {
        pins.push(pin)?;
    }
    Ok(pins)
}

/// The pins that are still to be put in order.
#[derive(Clone, Copy)]
struct PinsLeft<'a> {
    ins: &'a [Conn],
    outs: &'a [Conn],
}

impl<'a> PinsLeft<'a> {
    /// Takes the next pin.
    fn next(&mut self) -> Option<&'a Conn>
        ensures { MatchOption result ((self.old.ins.now ≡ []) × (self.old.outs.now ≡ []))
            (λ pin. TakesPin self.old.ins.now self.old.outs.now pin.now self.new.ins.now
            self.new.outs.now) }
    {
        if self.is_input_next() {
            let (pin, rest) = self.ins.split_first()?;
            self.ins = rest;
            return Some(pin);
        }
        let (pin, rest) = self.outs.split_first()?;
        self.outs = rest;
        Some(pin)
    }

    /// Whether there is an input, and no output of a lower net is next.
    fn is_input_next(&self) -> bool
        ensures { IsTrue result ↔ IsInputNext self.now.ins.now self.now.outs.now }
    {
        match (self.ins, self.outs) {
            ([], _) => false,
            (_, []) => true,
            ([input, ..], [output, ..]) => input.net <= output.net,
        }
    }
}
